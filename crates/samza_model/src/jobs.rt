// What a job is to the container.
ghost use Rattle.std.specs.Prelude.{◌≡◌, IfOk};
ghost use Rattle.samza_model.specs.Meaning.{Meaning};

use crate::{Act, Answer, Envelope, NoMemory};
use std::alloc::Global;

/// A job. Its next act is a function of the message and the answers so far, and of nothing else.
pub trait Job {
    /// What the job is, as plain data.
    type Plain;

    ghost plain: { Self → Self.Plain };

    /// What a job of this data does.
    ghost meaning: { Self.Plain → Meaning };

    /// The next act on a message.
    fn act(&self, alloc: Global, envelope: &Envelope, answers: &[Answer]) -> Result<Act, NoMemory>
        ensures { IfOk result (λ act. act ≡ (meaning (plain self.now)).act envelope.now
            answers.now) };

    /// The next act of a window.
    fn window(&self, alloc: Global, answers: &[Answer]) -> Result<Act, NoMemory>
        ensures { IfOk result (λ act. act ≡ (meaning (plain self.now)).window answers.now) };
}
