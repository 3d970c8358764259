// What a list of packed events says of them.
ghost use Rattle.std.specs.Prelude.{◌≡◌, OnOk};

use packed_events::Packed;
use samza_model::{Act, Answer, Failure, NoMemory, Record, Scope, Turn, Why};
use std::alloc::Global;
use std::test::Fail;
use test_kit::bin;

/// An act with its answer. Keys are `k`, and values `vw`.
#[derive(Clone, Copy)]
enum Made {
    Get,
    GetMissing,
    Next,
    Put,
    Delete,
    Send,
    SendRemoval,
    AskCommit,
    AskShutdown,
    Done,
    Fail,
}

/// An event.
#[derive(Clone, Copy)]
enum Kind {
    /// A callback begins on a message with this key and value.
    Deliver(u64, &'static str, Option<&'static str>),
    Did(u64, Made),
    Complete(u64),
    Failed(Turn),
    WindowDid(Made),
    WindowEnded,
}

fn record(alloc: Global, key: &str, value: Option<&str>) -> Result<Record, NoMemory> {
    let key = bin(alloc, key)?;
    let value = match value {
        Some(text) => Some(bin(alloc, text)?),
        None => None,
    };
    Ok(Record { key, value })
}

fn sent(alloc: Global, value: Option<&str>) -> Result<Act, NoMemory> {
    let body = record(alloc, "k", value)?;
    Ok(Act::Send { output: 0, body })
}

fn put(alloc: Global) -> Result<Act, NoMemory> {
    let key = bin(alloc, "k")?;
    let value = bin(alloc, "vw")?;
    Ok(Act::Put {
        store: 0,
        key,
        value,
    })
}

/// The acts with a key alone, and those with none.
fn short_act(alloc: Global, made: Made) -> Result<Act, NoMemory> {
    let key = bin(alloc, "k")?;
    Ok(match made {
        Made::Get | Made::GetMissing => Act::Get { store: 0, key },
        Made::Next => Act::Next { store: 0, key },
        Made::Delete => Act::Delete { store: 0, key },
        Made::AskCommit => Act::AskCommit(Scope::CurrentTask),
        Made::AskShutdown => Act::AskShutdown(Scope::AllTasks),
        Made::Fail => Act::Fail(3),
        _ => Act::Done,
    })
}

fn act_of(alloc: Global, made: Made) -> Result<Act, NoMemory> {
    match made {
        Made::Put => put(alloc),
        Made::Send => sent(alloc, Some("vw")),
        Made::SendRemoval => sent(alloc, None),
        made => short_act(alloc, made),
    }
}

fn answer_of(alloc: Global, made: Made) -> Result<Answer, NoMemory> {
    let value = bin(alloc, "vw")?;
    match made {
        Made::Get => Ok(Answer::Found(value)),
        Made::Next => Ok(Answer::Pair(bin(alloc, "k")?, value)),
        Made::GetMissing => Ok(Answer::Missing),
        _ => Ok(Answer::Noted),
    }
}

fn push_did(alloc: Global, events: &mut Packed, number: u64, made: Made) -> Result<(), NoMemory> {
    let act = act_of(alloc, made)?;
    let answer = answer_of(alloc, made)?;
    events.push_did(number, 0, &act, &answer)
}

fn push_window_did(alloc: Global, events: &mut Packed, made: Made) -> Result<(), NoMemory> {
    let act = act_of(alloc, made)?;
    let answer = answer_of(alloc, made)?;
    events.push_window_did(0, &act, &answer)
}

/// A callback of the second input begins, whose offset is its number and 10.
fn push_deliver(
    alloc: Global,
    events: &mut Packed,
    number: u64,
    key: &str,
    value: Option<&str>,
) -> Result<(), NoMemory> {
    let body = record(alloc, key, value)?;
    events.push_deliver(number, 1, number.saturating_add(10), &body, 7)
}

fn push(alloc: Global, events: &mut Packed, kind: Kind) -> Result<(), NoMemory> {
    match kind {
        Kind::Deliver(number, key, value) => push_deliver(alloc, events, number, key, value),
        Kind::Did(number, made) => push_did(alloc, events, number, made),
        Kind::Complete(number) => events.push_complete(number),
        Kind::Failed(turn) => events.push_failed(Failure {
            turn,
            place: None,
            why: Why::Code(3),
        }),
        Kind::WindowDid(made) => push_window_did(alloc, events, made),
        Kind::WindowEnded => events.push_window_ended(),
    }
}

/// The number, the input and the offset of a callback that begins at this place; past the last none does.
fn delivered(events: &Packed, place: usize) -> Option<(u64, u32, u64)> {
    if place < events.lens().0 {
        events.delivered(place)
    } else {
        None
    }
}

/// Events of each kind, with keys and values and without, and how many bytes each has of them.
const ROWS: &[(Kind, usize)] = &[
    (Kind::Deliver(0, "k", Some("vw")), 3),
    (Kind::Deliver(1, "", None), 0),
    (Kind::Did(0, Made::Get), 3),
    (Kind::Did(1, Made::GetMissing), 1),
    (Kind::Did(0, Made::Next), 4),
    (Kind::Did(0, Made::Put), 3),
    (Kind::Did(0, Made::Delete), 1),
    (Kind::Did(0, Made::Send), 3),
    (Kind::Did(1, Made::SendRemoval), 1),
    (Kind::Did(0, Made::AskCommit), 0),
    (Kind::Did(0, Made::AskShutdown), 0),
    (Kind::Did(0, Made::Done), 0),
    (Kind::Did(1, Made::Fail), 0),
    (Kind::Complete(0), 0),
    (Kind::Failed(Turn::Call(1)), 0),
    (Kind::WindowDid(Made::Put), 3),
    (Kind::WindowDid(Made::Get), 3),
    (Kind::WindowEnded, 0),
    (Kind::Failed(Turn::Window), 0),
];

/// The first so many rows' events.
fn packed(alloc: Global, count: usize) -> Result<Packed, NoMemory> {
    let mut events = Packed::new(alloc);
    for (kind, _bytes) in ROWS.iter().take(count) {
        push(alloc, &mut events, *kind)?;
    }
    Ok(events)
}

/// The number of bytes of the first so many rows.
fn bytes_of(count: usize) -> usize {
    let mut sum: usize = 0;
    for (_kind, bytes) in ROWS.iter().take(count) {
        sum = sum.saturating_add(*bytes);
    }
    sum
}

#[test]
fn each_event_has_its_bytes(rt: HostRuntime) -> Result<(), Fail> {
    for count in 0..20 {
        let events = packed(rt.alloc(), count)?;
        assert!(rt;
            events.lens() == (ROWS.len().min(count), bytes_of(count)),
            "{count} events"
        );
    }
    Ok(())
}

#[test]
fn popping_leaves_the_events_before(rt: HostRuntime) -> Result<(), Fail> {
    let mut events = packed(rt.alloc(), ROWS.len())?;
    for i in 0..20 {
        events.pop();
        let count = ROWS.len().saturating_sub(i).saturating_sub(1);
        assert!(rt; events.lens() == (count, bytes_of(count)), "{count} events");
    }
    Ok(())
}

#[test]
fn callbacks_begin_at_deliveries(rt: HostRuntime) -> Result<(), Fail> {
    let events = packed(rt.alloc(), ROWS.len())?;
    for place in 0..20 {
        let want = match place {
            0 => Some((0, 1, 10)),
            1 => Some((1, 1, 11)),
            _ => None,
        };
        assert!(rt; delivered(&events, place) == want, "at {place}");
    }
    Ok(())
}

/// Callbacks' numbers, with the events of theirs and their bytes, and the one that begins first.
const KEPT: &[(&[u64], (usize, usize), Option<(u64, u32, u64)>)] = &[
    (&[], (0, 0), None),
    (&[0], (10, 17), Some((0, 1, 10))),
    (&[1], (5, 2), Some((1, 1, 11))),
    (&[1, 0], (15, 19), Some((0, 1, 10))),
    (&[2], (0, 0), None),
];

#[test]
fn events_of_callbacks_are_kept(rt: HostRuntime) -> Result<(), Fail> {
    let events = packed(rt.alloc(), ROWS.len())?;
    for (numbers, lens, first) in KEPT {
        let kept = events.kept(rt.alloc(), numbers)?;
        assert!(rt;
            kept.lens() == *lens && delivered(&kept, 0) == *first,
            "{numbers:?}"
        );
    }
    Ok(())
}

/// Puts two events more behind the list, and cuts them off.
#[tactic(auto, using(crate::proofs::Cuts::cut_two))]
fn add_and_cut(alloc: Global, events: &mut Packed) -> Result<(), NoMemory>
    ensures { OnOk result (events.new ≡ events.old) }
{
    let body = record(alloc, "k", Some("vw"))?;
    let (count, bytes) = events.lens();
    events.push_deliver(2, 1, 12, &body, 7)?;
    events.push_complete(2)?;
    events.cut(count, bytes);
    Ok(())
}

#[test]
fn cutting_leaves_the_events_before(rt: HostRuntime) -> Result<(), Fail> {
    let mut events = packed(rt.alloc(), 5)?;
    add_and_cut(rt.alloc(), &mut events)?;
    assert!(rt; events.lens() == (5, bytes_of(5)));
    Ok(())
}
