//! Frames: how the records of one append stand in a log's file, both ways.
//!
//! A frame is the length of its records part, the number of its records, and the records. `specs/Reading.antt` says how
//! bytes are read, with the place of the first byte that is no frame's; how records are spelled stands in the model.
#![tactic(auto)]

mod cutting;
mod decoding;
mod encoding;
mod faults;
mod frames;
mod gates;
mod headers;
mod reading;

pub use cutting::frames_of;
pub use decoding::{Decoded, decode};
pub use encoding::encode;
pub use faults::{BadAt, FrameFault};
pub use frames::Frame;
pub use gates::{CLOSED_GATE, OPEN_GATE};
pub use headers::{FRAME_LIMIT, frame_len};
pub use reading::{Checked, check};
