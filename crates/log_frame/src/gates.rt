// The bytes that stand before frames and behind the last one.

/// The gate before a frame that counts: the letter O.
pub const OPEN_GATE: u8 = 0x4F;

/// The gate at which a log ends: the letter C.
pub const CLOSED_GATE: u8 = 0x43;
