// A unit of a logical line.

/// A byte of a text, and the number of the natural line in which it stands, from 1.
#[derive(Clone, Copy)]
pub struct Placed {
    pub unit: u8,
    pub line: u64,
}
