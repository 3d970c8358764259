//! A task's checkpoint as a record, both ways: which record spells it, and the one checkpoint that a record spells. And
//! the checkpoint with which a log ends.
#![tactic(auto)]

mod decoding;
mod encoding;
mod faults;
mod fields;
mod lasts;
mod names;
mod orders;

pub use decoding::decode_checkpoint;
pub use encoding::encode_checkpoint;
pub use faults::CheckpointFault;
pub use lasts::last;
pub use orders::is_well_formed;
