//! What a container sees of its machine beside its disks: where a command's texts go (a sink takes bytes, one write after
//! another, and counts the writes that failed), and which callback in flight has the next turn.
#![tactic(auto)]

mod memory_sink;
mod sinks;
mod std_sink;
mod turns;

pub use memory_sink::MemSink;
pub use sinks::{Sink, SinkFault};
pub use std_sink::StdSink;
pub use turns::{First, Last, Listed, Seeded, Turns};
