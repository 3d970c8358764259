// How a run ends.

/// How a run ended.
#[derive(Clone, Copy, Debug, PartialEq, Eq)]
pub enum Stop {
    /// At the end of its input: each message is done, and all of it is committed.
    Ended,
    /// An act asked for a shutdown: no more was delivered, what was in flight is done, and all of it is committed.
    Asked,
    /// A turn of the unit at this place failed. Nothing was committed behind it.
    Failed { unit: u32 },
    /// The disk failed in a commit.
    Device,
    /// A file would pass 2^40 bytes by a commit.
    Limit,
    NoMemory,
}
