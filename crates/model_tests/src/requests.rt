// What asks for a mark, at its bounds.
use samza_model::{Act, Answer, Bin, Event, Record, Scope};
use slow_model::is_due;
use std::alloc::Global;
use std::test::Fail;
use test_kit::bin;

/// The delivery of a message of so many bytes.
fn delivery(alloc: Global, size: usize) -> Result<Event, Fail> {
    let value = Bin::from_vec(vec![in alloc; b'x'; size]?);
    let body = Record {
        key: bin(alloc, "")?,
        value: Some(value),
    };
    Ok(Event::Deliver {
        number: 0,
        input: 0,
        offset: 0,
        body,
        moment: 7,
    })
}

/// 128 deliveries of messages of so many bytes.
fn deliveries(alloc: Global, size: usize) -> Result<Vec<Event>, Fail> {
    let mut events = Vec::new(alloc);
    for _ in 0..128 {
        events.push(delivery(alloc, size)?)?;
    }
    Ok(events)
}

#[test]
fn messages_of_8_mebibytes_ask_for_a_mark(rt: HostRuntime) -> Result<(), Fail> {
    for (size, want) in [(65_535, false), (65_536, true)] {
        let events = deliveries(rt.alloc(), size)?;
        assert!(rt; is_due(events.as_slice()) == want, "128 of {size}");
    }
    Ok(())
}

/// The one act that asks for a commit.
fn asked(alloc: Global, scope: Scope) -> Result<Vec<Event>, Fail> {
    let mut events = Vec::new(alloc);
    events.push(Event::Did {
        number: 0,
        place: 0,
        act: Act::AskCommit(scope),
        answer: Answer::Noted,
    })?;
    Ok(events)
}

#[test]
fn a_commit_of_the_current_task_asks_for_a_mark(rt: HostRuntime) -> Result<(), Fail> {
    for (scope, want) in [(Scope::CurrentTask, true), (Scope::AllTasks, false)] {
        let events = asked(rt.alloc(), scope)?;
        assert!(rt; is_due(events.as_slice()) == want, "{scope:?}");
    }
    Ok(())
}
