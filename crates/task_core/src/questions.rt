// A turn's question: what the next act of the turn is a function of, with memory of its own.
ghost use Rattle.std.specs.Prelude.{◌≡◌, Some, None, IfOk};

use samza_model::{Answer, Envelope, Items, NoMemory, Plain, Turn};
use std::alloc::Global;

/// What a turn's next act is a function of: its envelope, none for a window, and what its acts were answered so far.
#[derive(Debug, Drop)]
pub struct Question {
    pub turn: Turn,
    pub envelope: Option<Envelope>,
    pub answers: Items<Answer>,
}

/// The question of a callback, by copies of what it has.
pub(crate) fn call_question(
    alloc: Global,
    number: u64,
    envelope: &Envelope,
    answers: &Items<Answer>,
) -> Result<Question, NoMemory>
    ensures { IfOk result (λ q. q
        ≡ record { turn = Turn.Call number; envelope = Some envelope.now; answers = answers.now }) }
{
    Ok(Question {
        turn: Turn::Call(number),
        envelope: Some(envelope.copy(alloc)?),
        answers: answers.copy(alloc)?,
    })
}

/// The question of a window, by a copy of its answers.
pub(crate) fn window_question(alloc: Global, answers: &Items<Answer>) -> Result<Question, NoMemory>
    ensures { IfOk result (λ q. q
        ≡ record { turn = Turn.Window; envelope = None; answers = answers.now }) }
{
    Ok(Question {
        turn: Turn::Window,
        envelope: None,
        answers: answers.copy(alloc)?,
    })
}
