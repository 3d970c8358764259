// What a head says of its event.
ghost use Rattle.std.specs.Prelude.{◌≡◌, ◌≤◌, ◌<◌, ◌^◌};
ghost use Rattle.packed_events.specs.Packed.{value_len, act_len, answer_len, head_len, head_belongs, delivered_head};
ghost use Rattle.samza_model.specs.Journals.{is_among, is_turn_among};

use crate::heads::{ActHead, AnswerHead, Head};
use samza_model::Turn;

fn value_len(value: Option<usize>) -> usize
    ensures { result ≡ value_len value }
{
    match value {
        Some(len) => len,
        None => 0,
    }
}

fn act_len(act: ActHead) -> usize
    requires { act_len act < 2 ^ 63 }
    ensures { result ≡ act_len act }
{
    match act {
        ActHead::Get { key, .. } => key,
        ActHead::Next { key, .. } => key,
        ActHead::Put { key, value, .. } => key + value,
        ActHead::Delete { key, .. } => key,
        ActHead::Send { key, value, .. } => key + value_len(value),
        ActHead::AskCommit(_) => 0,
        ActHead::AskShutdown(_) => 0,
        ActHead::Done => 0,
        ActHead::Fail(_) => 0,
    }
}

fn answer_len(answer: AnswerHead) -> usize
    requires { answer_len answer < 2 ^ 63 }
    ensures { result ≡ answer_len answer }
{
    match answer {
        AnswerHead::Found(value) => value,
        AnswerHead::Pair(key, value) => key + value,
        AnswerHead::Missing => 0,
        AnswerHead::Noted => 0,
    }
}

/// How many bytes an event has.
pub(crate) fn head_len(head: &Head, most: usize) -> usize
    requires within { head_len head.now ≤ most }
    requires small { most < 2 ^ 63 }
    ensures { result ≡ head_len head.now }
{
    match head {
        Head::Deliver { key, value, .. } => *key + value_len(*value),
        Head::Did { act, answer, .. } => act_len(*act) + answer_len(*answer),
        Head::Complete(_) => 0,
        Head::Failed(_) => 0,
        Head::WindowDid { act, answer, .. } => act_len(*act) + answer_len(*answer),
        Head::WindowEnded => 0,
    }
}

/// Whether an event belongs to one of these callbacks.
pub(crate) fn belongs_head(head: &Head, numbers: &[u64]) -> bool
    ensures { result ≡ head_belongs numbers.now head.now }
{
    match head {
        Head::Deliver { number, .. } => is_among(*number, numbers),
        Head::Did { number, .. } => is_among(*number, numbers),
        Head::Complete(number) => is_among(*number, numbers),
        Head::Failed(failure) => is_turn_among(failure.turn, numbers),
        Head::WindowDid { .. } => false,
        Head::WindowEnded => false,
    }
}

fn is_turn_among(turn: Turn, numbers: &[u64]) -> bool
    ensures { result ≡ is_turn_among numbers.now turn }
{
    match turn {
        Turn::Call(number) => is_among(number, numbers),
        Turn::Window => false,
    }
}

fn is_among(number: u64, numbers: &[u64]) -> bool
    ensures { result ≡ is_among numbers.now number }
{
    for other in numbers {
        if *other == number {
            return true;
        }
    }
    false
}

/// The number, the input and the offset of a callback that begins.
pub(crate) fn delivered_head(head: &Head) -> Option<(u64, u32, u64)>
    ensures { result ≡ delivered_head head.now }
{
    match head {
        Head::Deliver {
            number,
            input,
            offset,
            ..
        } => Some((*number, *input, *offset)),
        Head::Did { .. } => None,
        Head::Complete(_) => None,
        Head::Failed(_) => None,
        Head::WindowDid { .. } => None,
        Head::WindowEnded => None,
    }
}
