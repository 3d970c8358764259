// What callbacks of the word count come to, as their acts take turns.
use crate::cores::{Shape, begin};
use crate::steps::{GOES_ON, Look, Step, Told, first_wrong};
use samza_model::{Failure, NoMemory, Turn, Why};
use std::alloc::Global;
use std::test::Fail;
use task_core::{Applied, DeliverFault, OpenWindowFault, PlanFault, Status};

const ENDED: Applied = Applied {
    ended: true,
    failed: false,
    ask: None,
};

/// What a core says of itself in which nothing is in flight.
pub(crate) const IDLE: Status = Status {
    in_flight: 0,
    due: false,
    window_due: false,
    in_window: false,
    failed: None,
    asked: None,
};

/// A name, a core, and its steps.
type Row = (&'static str, Shape, &'static [Step]);

/// Schedules of callbacks' acts.
const SCHEDULES: &[Row] = &[
    (
        "a commit awaits the callbacks in flight",
        Shape {
            concurrency: 3,
            span: 65_536,
            async_commit: false,
            end: 3,
        },
        &[
            Step::Deliver(Some("a"), Ok(0)),
            Step::Deliver(Some("b"), Ok(1)),
            Step::Deliver(Some("c"), Ok(2)),
            Step::End(1, 4, false),
            Step::Stands(Look {
                flying: &[0, 2],
                low: 0,
                next: 3,
                events: 7,
                last: 0,
            }),
            Step::Plan(0, Err(PlanFault::Busy { in_flight: 2 })),
            Step::Stands(Look {
                flying: &[0, 2],
                low: 0,
                next: 3,
                events: 7,
                last: 0,
            }),
            Step::Holds(&[("b", "1")]),
            Step::Sent(1, b"\0\0\0\x01b\0\0\0\x011"),
        ],
    ),
    (
        "a commit that awaits none",
        Shape {
            concurrency: 3,
            span: 65_536,
            async_commit: true,
            end: 3,
        },
        &[
            Step::Deliver(Some("a"), Ok(0)),
            Step::Deliver(Some("b"), Ok(1)),
            Step::Deliver(Some("c"), Ok(2)),
            Step::End(1, 4, false),
            Step::Plan(0, Ok((1, 0))),
            Step::Stands(Look {
                flying: &[0, 2],
                low: 0,
                next: 3,
                events: 7,
                last: 0,
            }),
        ],
    ),
    (
        "each reads the store before the other writes",
        Shape {
            concurrency: 2,
            span: 65_536,
            async_commit: false,
            end: 2,
        },
        &[
            Step::Deliver(Some("a"), Ok(0)),
            Step::Deliver(Some("a"), Ok(1)),
            Step::Acts(&[0, 1, 0, 1, 0, 1, 0], ENDED),
            Step::Acts(&[0], ENDED),
            Step::Holds(&[("a", "1")]),
            Step::Sent(2, b"\0\0\0\x01a\0\0\0\x011\0\0\0\x01a\0\0\0\x011"),
        ],
    ),
    (
        "the last in flight acts",
        Shape {
            concurrency: 3,
            span: 65_536,
            async_commit: false,
            end: 3,
        },
        &[
            Step::Deliver(Some("a"), Ok(0)),
            Step::Deliver(Some("b"), Ok(1)),
            Step::Deliver(Some("c"), Ok(2)),
            Step::Acts(&[2, 2, 2], GOES_ON),
            Step::Acts(&[2], ENDED),
            Step::Acts(&[1, 1, 1, 1], ENDED),
            Step::Acts(&[0, 0, 0, 0], ENDED),
            Step::Stands(Look {
                flying: &[],
                low: 3,
                next: 3,
                events: 15,
                last: 0,
            }),
            Step::Holds(&[("a", "1"), ("b", "1"), ("c", "1")]),
            Step::Sent(
                3,
                b"\0\0\0\x01c\0\0\0\x011\0\0\0\x01b\0\0\0\x011\0\0\0\x01a\0\0\0\x011",
            ),
        ],
    ),
    (
        "341 words",
        Shape {
            concurrency: 1,
            span: 65_536,
            async_commit: false,
            end: 1,
        },
        &[
            Step::Words(341, Ok(0)),
            Step::End(0, 1_024, false),
            Step::Holds(&[("w", "341")]),
            Step::Sent(341, b"\0\0\0\x01w\0\0\0\x03341"),
            Step::Says(IDLE),
        ],
    ),
    (
        "342 words",
        Shape {
            concurrency: 1,
            span: 65_536,
            async_commit: false,
            end: 1,
        },
        &[
            Step::Words(342, Ok(0)),
            Step::End(0, 1_024, true),
            Step::Says(Status {
                failed: Some(Failure {
                    turn: Turn::Call(0),
                    place: Some((0, 0)),
                    why: Why::TooMany,
                }),
                ..IDLE
            }),
        ],
    ),
    (
        "a message without a value",
        Shape {
            concurrency: 3,
            span: 65_536,
            async_commit: false,
            end: 6,
        },
        &[
            Step::Deliver(Some("a"), Ok(0)),
            Step::Deliver(Some("b"), Ok(1)),
            Step::Deliver(None, Ok(2)),
            Step::End(0, 4, false),
            Step::End(1, 4, false),
            Step::Deliver(Some("d"), Ok(3)),
            Step::Deliver(Some("e"), Ok(4)),
            Step::End(3, 4, false),
            Step::End(4, 4, false),
            Step::End(2, 1, true),
            Step::Says(Status {
                failed: Some(Failure {
                    turn: Turn::Call(2),
                    place: Some((0, 2)),
                    why: Why::Code(1),
                }),
                ..IDLE
            }),
            Step::Deliver(Some("f"), Err(DeliverFault::Failed)),
            Step::Plan(0, Err(PlanFault::Failed)),
            Step::OpenWindow(Err(OpenWindowFault::Failed)),
            Step::Stands(Look {
                flying: &[],
                low: 2,
                next: 5,
                events: 22,
                last: 0,
            }),
            Step::Holds(&[("a", "1"), ("b", "1"), ("d", "1"), ("e", "1")]),
        ],
    ),
];

/// Messages that are refused.
const REFUSALS: &[Row] = &[
    (
        "a span that is reached",
        Shape {
            concurrency: 2,
            span: 8,
            async_commit: false,
            end: 20,
        },
        &[
            Step::Deliver(Some(""), Ok(0)),
            Step::Deliver(Some(""), Ok(1)),
            Step::End(1, 1, false),
            Step::Deliver(Some(""), Ok(2)),
            Step::End(2, 1, false),
            Step::Deliver(Some(""), Ok(3)),
            Step::End(3, 1, false),
            Step::Deliver(Some(""), Ok(4)),
            Step::End(4, 1, false),
            Step::Deliver(Some(""), Ok(5)),
            Step::End(5, 1, false),
            Step::Deliver(Some(""), Ok(6)),
            Step::End(6, 1, false),
            Step::Deliver(Some(""), Ok(7)),
            Step::End(7, 1, false),
            Step::MarkDue,
            Step::Deliver(Some(""), Err(DeliverFault::Spanned)),
            Step::Stands(Look {
                flying: &[0],
                low: 0,
                next: 8,
                events: 15,
                last: 0,
            }),
            Step::End(0, 1, false),
            Step::Deliver(Some(""), Err(DeliverFault::Draining)),
        ],
    ),
    (
        "the end of an input, before its callbacks in flight are too many",
        Shape {
            concurrency: 1,
            span: 65_536,
            async_commit: false,
            end: 1,
        },
        &[
            Step::Deliver(Some("a"), Ok(0)),
            Step::Deliver(Some("b"), Err(DeliverFault::Ended)),
        ],
    ),
    (
        "too many in flight, then a commit that is due",
        Shape {
            concurrency: 1,
            span: 1,
            async_commit: false,
            end: 2,
        },
        &[
            Step::Deliver(Some("a"), Ok(0)),
            Step::MarkDue,
            Step::Deliver(Some("b"), Err(DeliverFault::Full { in_flight: 1 })),
            Step::End(0, 4, false),
            Step::Deliver(Some("b"), Err(DeliverFault::Draining)),
            Step::Commit(0, Ok((1, 1))),
            Step::Deliver(Some("b"), Ok(1)),
        ],
    ),
    (
        "a commit that is due and awaits none",
        Shape {
            concurrency: 2,
            span: 65_536,
            async_commit: true,
            end: 2,
        },
        &[
            Step::Deliver(Some("a"), Ok(0)),
            Step::MarkDue,
            Step::Due(true),
            Step::Deliver(Some("b"), Ok(1)),
        ],
    ),
];

/// Commits and windows.
const BETWEEN: &[Row] = &[
    (
        "the interval of commits",
        Shape {
            concurrency: 1,
            span: 65_536,
            async_commit: false,
            end: 2,
        },
        &[
            Step::Tell(99),
            Step::Due(false),
            Step::Tell(100),
            Step::Due(true),
            Step::Commit(0, Ok((1, 0))),
            Step::Due(false),
            Step::Tell(199),
            Step::Due(false),
            Step::Tell(200),
            Step::Due(true),
        ],
    ),
    (
        "messages behind a commit",
        Shape {
            concurrency: 1,
            span: 65_536,
            async_commit: false,
            end: 2,
        },
        &[
            Step::Deliver(Some("a"), Ok(0)),
            Step::End(0, 4, false),
            Step::Commit(0, Ok((1, 1))),
            Step::Stands(Look {
                flying: &[],
                low: 1,
                next: 1,
                events: 0,
                last: 1,
            }),
            Step::Deliver(Some("a"), Ok(1)),
            Step::End(1, 4, false),
            Step::Plan(1, Ok((2, 2))),
            Step::Holds(&[("a", "2")]),
            Step::Sent(2, b"\0\0\0\x01\0\0\0\x01a\0\0\0\x012"),
        ],
    ),
    (
        "a window",
        Shape {
            concurrency: 1,
            span: 65_536,
            async_commit: false,
            end: 2,
        },
        &[
            Step::Deliver(Some("a"), Ok(0)),
            Step::OpenWindow(Err(OpenWindowFault::Busy { in_flight: 1 })),
            Step::End(0, 4, false),
            Step::Ask(Turn::Window, Told::Unknown),
            Step::OpenWindow(Ok(())),
            Step::OpenWindow(Err(OpenWindowFault::Windowing)),
            Step::Deliver(Some("b"), Err(DeliverFault::Windowing)),
            Step::Plan(0, Err(PlanFault::Windowing)),
            Step::Says(Status {
                in_window: true,
                ..IDLE
            }),
            Step::Ask(Turn::Window, Told::Applied(ENDED)),
            Step::Says(IDLE),
            Step::Ask(Turn::Window, Told::Unknown),
            Step::Deliver(Some("b"), Ok(1)),
        ],
    ),
];

/// The place of the first step of a row that isn't answered so.
fn wrong(alloc: Global, shape: Shape, steps: &[Step]) -> Result<Option<usize>, NoMemory> {
    let mut core = begin(alloc, shape)?;
    first_wrong(alloc, &mut core, steps)
}

#[test]
fn schedules_come_to_what_was_found_by_hand(rt: HostRuntime) -> Result<(), Fail> {
    for (name, shape, steps) in SCHEDULES {
        let found = wrong(rt.alloc(), *shape, steps)?;
        assert!(rt; found.is_none(), "{name}: {found:?}");
    }
    Ok(())
}

#[test]
fn messages_are_refused_by_the_first_cause(rt: HostRuntime) -> Result<(), Fail> {
    for (name, shape, steps) in REFUSALS {
        let found = wrong(rt.alloc(), *shape, steps)?;
        assert!(rt; found.is_none(), "{name}: {found:?}");
    }
    Ok(())
}

#[test]
fn commits_and_windows_go_between_messages(rt: HostRuntime) -> Result<(), Fail> {
    for (name, shape, steps) in BETWEEN {
        let found = wrong(rt.alloc(), *shape, steps)?;
        assert!(rt; found.is_none(), "{name}: {found:?}");
    }
    Ok(())
}
