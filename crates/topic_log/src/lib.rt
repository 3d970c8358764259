//! Logs: files of frames, of which a crash leaves the frames before an append or those after it.
#![tactic(auto)]

mod batches;
mod calls;
mod extents;
mod faults;
mod logs;
mod opening;
mod producing;
mod shelf_logs;
mod staging;
mod windows;

pub use batches::Batches;
pub use extents::{Extent, Place};
pub use faults::LogFault;
pub use logs::Log;
pub use producing::produce_one;
pub use shelf_logs::read_shelf;
