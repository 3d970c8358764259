// The job's next act on a question, computed apart from the core.
ghost use Rattle.std.specs.Prelude.{◌≡◌, ℕ, true, is_some, IfOk};
ghost use Rattle.samza_model.specs.declared.turns.Turn.TheVariants.{Call};
ghost use Rattle.task_core.specs.Stepping.{IsNext};

use crate::questions::Question;
use samza_model::{Act, Job, NoMemory, Turn};
use std::alloc::Global;
use std::marker::Model;

/// A question with the job's next act on it, to be applied to the core that asked it.
#[derive(Drop)]
pub struct Stepped<'j, J: Job> {
    job: &'j J,
    pub(crate) question: Question,
    pub(crate) act: Act,
}

impl<'j, J: Job> Model for Stepped<'j, J> {
    ghost use Rattle.task_core.specs.Stepping.{SteppedValue, IsNext};

    ghost Value = { SteppedValue J.Plain };

    ghost view = { λ s. record { job = J.plain s.job.now; question = s.question; act = s.act } };

    ghost invariant = { λ s. IsNext (J.meaning (J.plain s.job.now)) s.question s.act };
}

/// The job's next act on a question.
fn next_act<J: Job>(alloc: Global, job: &J, question: &Question) -> Result<Act, NoMemory>
    requires envelope { (n : ℕ) → question.now.turn ≡ Call n
        → is_some question.now.envelope ≡ true }
    ensures { IfOk result (λ act. IsNext (J.meaning (J.plain job.now)) question.now act) }
{
    let answers = question.answers.as_slice();
    match question.turn {
        Turn::Call(_) => job.act(alloc, question.envelope.as_ref().unwrap(), answers),
        Turn::Window => job.window(alloc, answers),
    }
}

/// Computes the job's next act on a question, which takes nothing from the core that asked it. The one error is want of memory.
pub fn step<'j, J: Job>(
    alloc: Global,
    job: &'j J,
    question: Question,
) -> Result<Stepped<'j, J>, NoMemory>
    requires envelope { (n : ℕ) → question.turn ≡ Call n → is_some question.envelope ≡ true }
    ensures job { IfOk result (λ s. s.job ≡ J.plain job.now) }
    ensures question { IfOk result (λ s. s.question ≡ question) }
    ensures act { IfOk result (λ s. IsNext (J.meaning s.job) s.question s.act) }
{
    let act = next_act(alloc, job, &question)?;
    Ok(Stepped { job, question, act })
}
