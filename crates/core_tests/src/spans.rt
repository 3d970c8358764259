// A task whose first message stays in flight, while all others within its span are done.
use crate::cores::{Shape, begin, body};
use crate::steps::{deliver, end};
use std::alloc::Global;
use std::test::Fail;
use task_core::{Core, DeliverFault};

const WIDE: Shape = Shape {
    concurrency: 2,
    span: 65_536,
    async_commit: false,
    end: 65_537,
};

/// Delivers a message without a word, and does it: two events.
fn do_one(alloc: Global, core: &mut Core) -> Result<bool, Fail> {
    let body = body(alloc, Some(""))?;
    match deliver(core, body) {
        Ok(number) => Ok(end(core, number) == Ok((1, false))),
        Err(_) => Ok(false),
    }
}

/// Delivers the first message, and does all others within its span.
fn do_span(alloc: Global, core: &mut Core) -> Result<bool, Fail> {
    let body = body(alloc, Some(""))?;
    if deliver(core, body) != Ok(0) {
        return Ok(false);
    }
    for _ in 1..65_536 {
        if !do_one(alloc, core)? {
            return Ok(false);
        }
    }
    Ok(true)
}

#[test]
fn a_first_message_in_flight_holds_what_is_behind_its_span(rt: HostRuntime) -> Result<(), Fail> {
    let mut core = begin(rt.alloc(), WIDE)?;
    assert!(rt; do_span(rt.alloc(), &mut core)?);
    let body = body(rt.alloc(), Some(""))?;
    assert!(rt; deliver(&mut core, body) == Err(DeliverFault::Spanned));
    assert!(rt; core.events() == 131_071);
    assert!(rt; !core.is_due());
    Ok(())
}
