// What callbacks in flight make of calls.
use callback_manager::{BeginFault, Callbacks};
use samza_model::{Answer, Envelope, NoMemory};
use std::alloc::Global;
use std::test::Fail;
use test_kit::message;

/// A call, with what it is answered.
#[derive(Clone, Copy)]
enum Call {
    /// A message of this offset begins.
    Begin(u64, Result<u64, BeginFault>),
    Answer(u64),
    TakeAnswerBack(u64),
    /// The callback ends, and its message's offset is given.
    End(u64, Option<u64>),
}

/// A message begins, as long as there is a number for it.
fn begin(callbacks: &mut Callbacks, envelope: Envelope) -> Result<u64, BeginFault> {
    if callbacks.next() < u64::MAX {
        callbacks.begin(0, envelope, 7)
    } else {
        Err(BeginFault::Full)
    }
}

/// Gives a callback that is in flight an answer more.
fn answer(callbacks: &mut Callbacks, number: u64) -> Result<(), NoMemory> {
    if callbacks.entry(number).is_some() {
        callbacks.answer(number, Answer::Noted)?;
    }
    Ok(())
}

/// Ends a callback, and gives its message's offset.
fn end(callbacks: &mut Callbacks, number: u64) -> Option<u64> {
    match callbacks.end(number) {
        Some(entry) => Some(entry.envelope.offset),
        None => None,
    }
}

/// Whether the call is answered so.
fn is_answered(alloc: Global, callbacks: &mut Callbacks, call: Call) -> Result<bool, NoMemory> {
    match call {
        Call::Begin(offset, want) => Ok(begin(callbacks, message(alloc, offset, None)?) == want),
        Call::Answer(number) => {
            answer(callbacks, number)?;
            Ok(true)
        }
        Call::TakeAnswerBack(number) => {
            callbacks.take_answer_back(number);
            Ok(true)
        }
        Call::End(number, want) => Ok(end(callbacks, number) == want),
    }
}

/// The number of a callback's answers; none of one that isn't in flight.
fn answers_of(callbacks: &Callbacks, number: u64) -> Option<usize> {
    match callbacks.entry(number) {
        Some(entry) => Some(entry.answers.as_slice().len()),
        None => None,
    }
}

/// Whether this callback is at this place, with so many answers.
fn is_at(callbacks: &Callbacks, place: u32, want: Option<&(u64, usize)>) -> bool {
    match want {
        Some((number, answers)) => {
            callbacks.nth(place) == Some(*number)
                && answers_of(callbacks, *number) == Some(*answers)
        }
        None => false,
    }
}

/// Whether just these are in flight, of the numbers below 8, in order and with so many answers.
fn are_in_flight(callbacks: &Callbacks, want: &[(u64, usize)]) -> bool {
    for place in 0..callbacks.count() {
        if !is_at(callbacks, place, want.get(place as usize)) {
            return false;
        }
    }
    let found = (0..8).filter(|number| callbacks.entry(*number).is_some());
    found.count() == want.len() && callbacks.count() as usize == want.len()
}

/// Calls one after another on two callbacks at most, each with those that are in flight behind it: number and answers.
const ROWS: &[(Call, &[(u64, usize)])] = &[
    (Call::Begin(10, Ok(0)), &[(0, 0)]),
    (Call::Begin(11, Ok(1)), &[(0, 0), (1, 0)]),
    (Call::Begin(12, Err(BeginFault::Full)), &[(0, 0), (1, 0)]),
    // an answer goes to its own callback, and to none that isn't there
    (Call::Answer(1), &[(0, 0), (1, 1)]),
    (Call::Answer(1), &[(0, 0), (1, 2)]),
    (Call::Answer(0), &[(0, 1), (1, 2)]),
    (Call::Answer(5), &[(0, 1), (1, 2)]),
    (Call::TakeAnswerBack(1), &[(0, 1), (1, 1)]),
    (Call::TakeAnswerBack(5), &[(0, 1), (1, 1)]),
    // what ended is gone, and numbers go on rising
    (Call::End(0, Some(10)), &[(1, 1)]),
    (Call::End(0, None), &[(1, 1)]),
    (Call::Answer(0), &[(1, 1)]),
    (Call::Begin(12, Ok(2)), &[(1, 1), (2, 0)]),
    (Call::Begin(13, Err(BeginFault::Full)), &[(1, 1), (2, 0)]),
    (Call::End(2, Some(12)), &[(1, 1)]),
    (Call::End(1, Some(11)), &[]),
    (Call::Begin(13, Ok(3)), &[(3, 0)]),
];

#[test]
fn callbacks_answer_each_call(rt: HostRuntime) -> Result<(), Fail> {
    let mut callbacks = Callbacks::new(rt.alloc(), 2)?;
    for i in 0..ROWS.len() {
        let (call, want) = ROWS[i];
        assert!(rt;
            is_answered(rt.alloc(), &mut callbacks, call)?,
            "answer of call {i}"
        );
        assert!(rt;
            are_in_flight(&callbacks, want),
            "in flight behind call {i}"
        );
    }
    assert!(rt; callbacks.next() == 4 && callbacks.nth(1).is_none());
    Ok(())
}
