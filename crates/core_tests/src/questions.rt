// What comes of questions that are held while a core goes on.
use crate::cores::{Shape, begin, body};
use crate::steps::{GOES_ON, Look, Told, deliver, end, outcome, question, stands};
use samza_model::{NoMemory, Turn};
use std::alloc::Global;
use std::test::Fail;
use task_core::Core;

const SHAPE: Shape = Shape {
    concurrency: 1,
    span: 65_536,
    async_commit: false,
    end: 1,
};

/// Where a core stands whose one callback was answered nothing.
const BEGUN: Look = Look {
    flying: &[0],
    low: 0,
    next: 1,
    events: 1,
    last: 0,
};

/// A core, and whether a message with this value was delivered to it as callback 0.
fn with_one(alloc: Global, value: &str) -> Result<(Core, bool), NoMemory> {
    let mut core = begin(alloc, SHAPE)?;
    let body = body(alloc, Some(value))?;
    let begins = deliver(&mut core, body) == Ok(0);
    Ok((core, begins))
}

/// What comes of two questions on callback 0, both asked at first.
fn asked_twice(alloc: Global, core: &mut Core) -> Option<(Told, Told)> {
    match (question(core, Turn::Call(0)), question(core, Turn::Call(0))) {
        (Ok(first), Ok(second)) => Some((
            outcome(alloc, core, first),
            outcome(alloc, core, second),
        )),
        _ => None,
    }
}

/// What comes of a question on callback 0, once that has ended.
fn asked_early(alloc: Global, core: &mut Core) -> Option<Told> {
    match question(core, Turn::Call(0)) {
        Ok(question) if end(core, 0) == Ok((4, false)) => Some(outcome(alloc, core, question)),
        _ => None,
    }
}

/// What comes of a core's question on another one.
fn asked_elsewhere(alloc: Global, core: &Core, other: &mut Core) -> Option<Told> {
    match question(core, Turn::Call(0)) {
        Ok(question) => Some(outcome(alloc, other, question)),
        Err(_) => None,
    }
}

#[test]
fn the_second_of_two_questions_is_stale(rt: HostRuntime) -> Result<(), Fail> {
    let (mut core, begins) = with_one(rt.alloc(), "a")?;
    let found = asked_twice(rt.alloc(), &mut core);
    assert!(rt; begins && found == Some((Told::Applied(GOES_ON), Told::Stale(1))));
    assert!(rt; stands(&core, Look { events: 2, ..BEGUN }));
    Ok(())
}

#[test]
fn a_callback_that_ended_is_unknown(rt: HostRuntime) -> Result<(), Fail> {
    let (mut core, begins) = with_one(rt.alloc(), "a")?;
    assert!(rt; begins && asked_early(rt.alloc(), &mut core) == Some(Told::Unknown));
    Ok(())
}

#[test]
fn a_callback_of_another_message_is_unknown(rt: HostRuntime) -> Result<(), Fail> {
    let (core, begins) = with_one(rt.alloc(), "a")?;
    let (mut other, other_begins) = with_one(rt.alloc(), "b")?;
    let found = asked_elsewhere(rt.alloc(), &core, &mut other);
    assert!(rt; begins && other_begins && found == Some(Told::Unknown));
    assert!(rt; stands(&other, BEGUN));
    Ok(())
}
