// A job's turns, and why one failed.

/// A turn of a job: the callback of a message by its number, or a window.
#[derive(Clone, Copy, Debug, PartialEq, Eq)]
pub enum Turn {
    Call(u64),
    Window,
}

/// Why a turn failed.
#[derive(Clone, Copy, Debug, PartialEq, Eq)]
pub enum Why {
    /// The job failed it, with its own code.
    Code(u32),
    /// It went on after 1,023 answered acts.
    TooMany,
    /// An act named a store or an output that isn't there, or its key or value was too long.
    Limits,
    /// Its time ran out. Both moments are in milliseconds.
    Expired { delivered: u64, now: u64 },
}

/// A turn that failed, the number of the input and the offset of its message (none for a window), and why.
#[derive(Clone, Copy, Debug, PartialEq, Eq)]
pub struct Failure {
    pub turn: Turn,
    pub place: Option<(u32, u64)>,
    pub why: Why,
}
