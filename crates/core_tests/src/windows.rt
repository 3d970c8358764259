// What windows make of deliveries and completions.
use offset_window::{OffsetWindow, Spanned, WindowFault};
use std::test::Fail;

/// A step of a window, with what it is answered.
#[derive(Clone, Copy)]
enum Step {
    Deliver(Result<u64, Spanned>),
    Complete(u64, Result<(), WindowFault>),
}

/// Delivers the next offset, below the greatest one.
fn deliver(window: &mut OffsetWindow) -> Result<u64, Spanned> {
    if window.next() < u64::MAX {
        window.deliver()
    } else {
        Err(Spanned)
    }
}

/// Whether the step is answered so.
fn is_answered(window: &mut OffsetWindow, step: Step) -> bool {
    match step {
        Step::Deliver(want) => deliver(window) == want,
        Step::Complete(offset, want) => window.complete(offset) == want,
    }
}

/// Whether each step is answered so and leaves this first offset that isn't complete.
fn goes(window: &mut OffsetWindow, steps: &[(Step, u64)]) -> bool {
    for (step, low) in steps {
        if !is_answered(window, *step) || window.low() != *low {
            return false;
        }
    }
    true
}

/// A name, a span, and the steps of a window from offset 0 on, each with the first offset that isn't complete behind it.
type Row = (&'static str, u32, &'static [(Step, u64)]);

const ROWS: &[Row] = &[
    (
        "offsets complete in another order",
        65_536,
        &[
            (Step::Deliver(Ok(0)), 0),
            (Step::Deliver(Ok(1)), 0),
            (Step::Deliver(Ok(2)), 0),
            (Step::Deliver(Ok(3)), 0),
            (Step::Complete(2, Ok(())), 0),
            (Step::Complete(0, Ok(())), 1),
            (Step::Complete(1, Ok(())), 3),
        ],
    ),
    (
        "offsets that are complete, or were not delivered",
        65_536,
        &[
            (Step::Deliver(Ok(0)), 0),
            (Step::Deliver(Ok(1)), 0),
            (Step::Deliver(Ok(2)), 0),
            (Step::Deliver(Ok(3)), 0),
            (Step::Complete(2, Ok(())), 0),
            (Step::Complete(2, Err(WindowFault::Twice)), 0),
            (Step::Complete(9, Err(WindowFault::Stranger)), 0),
            (Step::Complete(0, Ok(())), 1),
            (Step::Complete(1, Ok(())), 3),
            (Step::Complete(2, Err(WindowFault::Stranger)), 3),
        ],
    ),
    (
        "a span that is reached",
        2,
        &[
            (Step::Deliver(Ok(0)), 0),
            (Step::Deliver(Ok(1)), 0),
            (Step::Deliver(Err(Spanned)), 0),
            (Step::Complete(1, Ok(())), 0),
            (Step::Deliver(Err(Spanned)), 0),
            (Step::Complete(0, Ok(())), 2),
            (Step::Deliver(Ok(2)), 2),
        ],
    ),
    (
        "a span that is reached, with one offset complete",
        2,
        &[
            (Step::Deliver(Ok(0)), 0),
            (Step::Deliver(Ok(1)), 0),
            (Step::Deliver(Err(Spanned)), 0),
            (Step::Complete(0, Ok(())), 1),
            (Step::Deliver(Ok(2)), 1),
            (Step::Deliver(Err(Spanned)), 1),
        ],
    ),
    (
        "no offset",
        2,
        &[(Step::Complete(0, Err(WindowFault::Stranger)), 0)],
    ),
];

#[test]
fn windows_answer_each_step(rt: HostRuntime) -> Result<(), Fail> {
    for (name, span, steps) in ROWS {
        let mut window = OffsetWindow::new(rt.alloc(), 0, *span)?;
        assert!(rt; goes(&mut window, steps), "{name}");
    }
    Ok(())
}
