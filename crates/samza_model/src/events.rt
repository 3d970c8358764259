// What happens to a task, one event after another.

use crate::{Act, Answer, Failure, Record};

/// One event of a task. Each is one step that nothing else of the task comes between.
#[derive(Debug, PartialEq, Eq, Drop)]
pub enum Event {
    /// A callback begins on the message at this offset of an input. The number counts the task's callbacks from 0. The
    /// moment, in milliseconds, is the last one that the task was told.
    Deliver {
        number: u64,
        input: u32,
        offset: u64,
        body: Record,
        moment: u64,
    },
    /// An act of a callback was made and answered. The place counts the callback's acts from 0.
    Did {
        number: u64,
        place: u32,
        act: Act,
        answer: Answer,
    },
    /// The callback of this number is done.
    Complete(u64),
    /// A callback or a window failed.
    Failed(Failure),
    /// An act of a window was made and answered. The place counts the window's acts from 0.
    WindowDid {
        place: u32,
        act: Act,
        answer: Answer,
    },
    /// A window is done.
    WindowEnded,
}
