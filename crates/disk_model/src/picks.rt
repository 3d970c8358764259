// Which of the images of a disk in memory a crash leaves.

/// The image that a crash leaves.
#[derive(Clone, Copy, Debug, PartialEq, Eq)]
pub enum Pick {
    /// Each file as it was at its last sync that succeeded.
    Old,
    /// Each file as a read gives it.
    New,
    /// Each file at its greatest size, with this value in each byte that a crash leaves free.
    Fill(u8),
    /// Each file as at its last sync that succeeded, with the first so many bytes of each write since. A cut is taken as
    /// not made, and zeros stand in a gap before a write.
    Cut(u64),
}
