// Worked examples: the bytes of small files, and the word count on small messages. What is wanted was found by hand.
ghost use Rattle.std.specs.Prelude.{◌≡◌, ◌∷◌, [], IfOk};
ghost use Rattle.std.specs.List.{AllByRecursion};
ghost use Rattle.samza_model.specs.Limits.{IsFrameable};

use checkpoint_log::is_well_formed;
use kv_store::Table;
use samza_model::{Act, Answer, Bin, Envelope, Items, NoMemory, Record, Why};
use shipped_jobs::WordCount;
use slow_logs::{spell_checkpoint, spell_log};
use slow_model::{PlainState, fold_all, replay, run_one};
use std::alloc::Global;
use std::test::Fail;
use test_kit::{Row, are_records, bin, checkpoint, has_pairs, message, records, set, setup};

/// The frames of one frame, of the one record (a, 1).
fn one_frame(alloc: Global) -> Result<Vec<Items<Record>>, NoMemory>
    ensures { IfOk result (λ frames. AllByRecursion IsFrameable frames.items) }
{
    let mut records = Vec::new(alloc);
    records.push(set(alloc, b"a", b"1")?)?;
    let mut frames = Vec::new(alloc);
    frames.push(Items::from_vec(records))?;
    Ok(frames)
}

#[test]
fn a_log_of_one_record_has_these_20_bytes(rt: HostRuntime) -> Result<(), Fail> {
    let alloc = rt.alloc();
    let frames = one_frame(alloc)?;
    let bytes = spell_log(alloc, frames.as_slice())?;
    let want = [
        0x4F, 0, 0, 0, 0x0A, 0, 0, 0, 1, // gate, bytes of the records, records
        0, 0, 0, 1, 0x61, 0, 0, 0, 1, 0x31, // a, 1
        0x43, // gate
    ];
    assert_eq!(rt; bytes.bytes(), want.as_slice());
    Ok(())
}

#[test]
fn a_log_of_no_frame_is_a_closed_gate(rt: HostRuntime) -> Result<(), Fail> {
    let bytes = spell_log(rt.alloc(), &[])?;
    assert_eq!(rt; bytes.bytes(), [0x43].as_slice());
    Ok(())
}

/// The file of the one checkpoint, where it is well formed.
fn spelled(alloc: Global) -> Result<Bin, Fail> {
    let c = checkpoint(alloc)?;
    if is_well_formed(&c) {
        Ok(spell_checkpoint(alloc, &c)?)
    } else {
        Err("not well formed".into())
    }
}

#[test]
fn a_file_of_one_checkpoint_has_these_83_bytes(rt: HostRuntime) -> Result<(), Fail> {
    let alloc = rt.alloc();
    let bytes = spelled(alloc)?;
    let want = [
        0x4F, 0, 0, 0, 0x49, 0, 0, 0, 1, // gate, bytes of the records, records
        0, 0, 0, 8, 0, 0, 0, 0, 0, 0, 0, 1, // the checkpoint's number
        0, 0, 0, 0x39, 1, 0, 1, // format, inputs
        0x0B, 0x6B, 0x61, 0x66, 0x6B, 0x61, 0x2E, 0x6C, 0x69, 0x6E, 0x65, 0x73, // kafka.lines
        0, 0, 0, 0, 0, 0, 0, 0, 0, 0, 0, 2, // its partition, its next offset
        1, 6, 0x63, 0x6F, 0x75, 0x6E, 0x74, 0x73, // counts
        0, 0, 0, 0, 0, 0, 0, 2, // its records
        1, 0x0C, 0x6B, 0x61, 0x66, 0x6B, 0x61, 0x2E, 0x74, 0x6F, 0x74, 0x61, 0x6C, 0x73, // kafka.totals
        0x43, // gate
    ];
    assert_eq!(rt; want.len(), 83);
    assert_eq!(rt; bytes.bytes(), want.as_slice());
    Ok(())
}

/// Five changes.
const FIVE: &[Row] = &[
    (b"a", Some(b"1")),
    (b"b", Some(b"1")),
    (b"a", None),
    (b"c", Some(b"2")),
    (b"b", Some(b"3")),
];

/// The map that their records leave.
fn replayed(alloc: Global) -> Result<Table, NoMemory> {
    let records = records(alloc, FIVE)?;
    replay(alloc, records.as_slice())
}

#[test]
fn records_leave_their_last_values(rt: HostRuntime) -> Result<(), Fail> {
    let table = replayed(rt.alloc())?;
    assert!(rt; has_pairs(rt.alloc(), &table, &[("b", "3"), ("c", "2")])?);
    Ok(())
}

fn blank(alloc: Global) -> Result<PlainState, NoMemory> {
    let setup = setup(alloc)?;
    slow_model::blank(alloc, &setup)
}

/// Whether the state has one store, with just these pairs.
pub(crate) fn holds(
    alloc: Global,
    state: &PlainState,
    pairs: &[(&str, &str)],
) -> Result<bool, NoMemory> {
    match state.stores() {
        [table] => has_pairs(alloc, table, pairs),
        _ => Ok(false),
    }
}

/// Whether the state has one output, which was sent these, the oldest first.
pub(crate) fn sent(state: &PlainState, want: &[(&str, Option<&str>)]) -> bool {
    match state.sent() {
        [records] => are_records(records.as_slice(), want),
        _ => false,
    }
}

/// Messages of these values, from offset 0 on.
fn messages(alloc: Global, values: &[Option<&str>]) -> Result<Vec<Envelope>, NoMemory> {
    let mut messages = Vec::new(alloc);
    for value in values {
        let value = match value {
            Some(text) => Some(bin(alloc, text)?),
            None => None,
        };
        messages.push(message(alloc, messages.len() as u64, value)?)?;
    }
    Ok(messages)
}

/// What messages of these values leave, from nothing; None where one of them isn't done.
fn left_by(alloc: Global, values: &[Option<&str>]) -> Result<Option<PlainState>, NoMemory> {
    let messages = messages(alloc, values)?;
    let setup = setup(alloc)?;
    let state = blank(alloc)?;
    fold_all(alloc, &WordCount, &setup, messages.as_slice(), state)
}

#[test]
fn two_messages_are_counted_in_order(rt: HostRuntime) -> Result<(), Fail> {
    let left = left_by(rt.alloc(), &[Some("a b"), Some("a")])?;
    let state = left.ok_or("not done")?;
    assert!(rt; holds(rt.alloc(), &state, &[("a", "2"), ("b", "1")])?);
    assert!(rt;
        sent(
            &state,
            &[("a", Some("1")), ("b", Some("1")), ("a", Some("2"))]
        )
    );
    Ok(())
}

#[test]
fn a_message_that_fails_leaves_no_state(rt: HostRuntime) -> Result<(), Fail> {
    let left = left_by(rt.alloc(), &[Some("a"), None])?;
    assert!(rt; left.is_none());
    Ok(())
}

/// How a message ends that is counted from this state on.
fn end_from(
    alloc: Global,
    message: &Envelope,
    state: &mut PlainState,
) -> Result<Option<Why>, NoMemory> {
    let setup = setup(alloc)?;
    run_one(alloc, &WordCount, &setup, message, state)
}

/// How a message of this value ends, and what it leaves.
fn end_of(alloc: Global, value: Option<Bin>) -> Result<(Option<Why>, PlainState), NoMemory> {
    let message = message(alloc, 0, value)?;
    let mut state = blank(alloc)?;
    let end = end_from(alloc, &message, &mut state)?;
    Ok((end, state))
}

#[test]
fn a_message_without_value_ends_with_code_1(rt: HostRuntime) -> Result<(), Fail> {
    let (end, state) = end_of(rt.alloc(), None)?;
    assert_eq!(rt; end, Some(Why::Code(1)));
    assert!(rt; holds(rt.alloc(), &state, &[])? && sent(&state, &[]));
    Ok(())
}

/// The word `w` so many times.
pub(crate) fn words(alloc: Global, count: usize) -> Result<Bin, NoMemory> {
    let mut text = Vec::new(alloc);
    for _ in 0..count {
        text.extend_from_slice(b"w ")?;
    }
    Ok(Bin::from_vec(text))
}

#[test]
fn a_message_of_341_words_is_done_and_one_of_342_is_not(rt: HostRuntime) -> Result<(), Fail> {
    for (count, want) in [(341, None), (342, Some(Why::TooMany))] {
        let text = words(rt.alloc(), count)?;
        let (end, state) = end_of(rt.alloc(), Some(text))?;
        assert_eq!(rt; end, want);
        assert!(rt; holds(rt.alloc(), &state, &[("w", "341")])?, "of {count}");
    }
    Ok(())
}

/// The key, or the key and the value, with which the act is answered.
fn answered(alloc: Global, state: &PlainState, act: &Act, want: &[&str]) -> Result<bool, NoMemory> {
    let answer = state.answer_to(alloc, act)?;
    Ok(match (&answer, want) {
        (Answer::Found(value), [text]) => value.bytes() == text.as_bytes(),
        (Answer::Pair(key, value), [name, text]) => {
            key.bytes() == name.as_bytes() && value.bytes() == text.as_bytes()
        }
        (Answer::Missing, []) => true,
        _ => false,
    })
}

fn put(alloc: Global, state: &mut PlainState, key: &str, value: &str) -> Result<(), NoMemory> {
    let key = bin(alloc, key)?;
    let value = bin(alloc, value)?;
    let store = 0;
    state.make(Act::Put { store, key, value })
}

/// A state in which (b, 1), (d, 2) and (b, 3) were put.
fn two_keys(alloc: Global) -> Result<PlainState, NoMemory> {
    let mut state = blank(alloc)?;
    for (key, value) in [("b", "1"), ("d", "2"), ("b", "3")] {
        put(alloc, &mut state, key, value)?;
    }
    Ok(state)
}

/// Whether a store's key is got so.
fn is_got(
    alloc: Global,
    state: &PlainState,
    store: u32,
    key: &str,
    want: &[&str],
) -> Result<bool, NoMemory> {
    let key = bin(alloc, key)?;
    answered(alloc, state, &Act::Get { store, key }, want)
}

/// Whether the pair from a store's key on is this one.
fn is_next(
    alloc: Global,
    state: &PlainState,
    store: u32,
    key: &str,
    want: &[&str],
) -> Result<bool, NoMemory> {
    let key = bin(alloc, key)?;
    answered(alloc, state, &Act::Next { store, key }, want)
}

/// A store and a key, how that is got, and the pair from it on.
type Looked = (
    u32,
    &'static str,
    &'static [&'static str],
    &'static [&'static str],
);

const ANSWERS: &[Looked] = &[
    (0, "a", &[], &["b", "3"]),
    (0, "b", &["3"], &["b", "3"]),
    (0, "c", &[], &["d", "2"]),
    (0, "e", &[], &[]),
    (1, "b", &[], &[]),
];

#[test]
fn an_act_is_answered_from_what_the_earlier_ones_left(rt: HostRuntime) -> Result<(), Fail> {
    let state = two_keys(rt.alloc())?;
    for (store, key, found, next) in ANSWERS {
        assert!(rt;
            is_got(rt.alloc(), &state, *store, key, found)?,
            "get {key}"
        );
        assert!(rt;
            is_next(rt.alloc(), &state, *store, key, next)?,
            "next {key}"
        );
    }
    Ok(())
}

#[test]
fn a_deleted_key_is_gone(rt: HostRuntime) -> Result<(), Fail> {
    let mut state = two_keys(rt.alloc())?;
    let key = bin(rt.alloc(), "b")?;
    state.make(Act::Delete { store: 0, key })?;
    assert!(rt; holds(rt.alloc(), &state, &[("d", "2")])?);
    Ok(())
}
