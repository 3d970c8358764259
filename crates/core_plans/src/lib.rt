//! What a commit is going to append, and the checkpoint that it makes, planned in memory.
#![tactic(auto)]

mod changes;
mod marks;
mod planning;
mod sends;

pub use planning::{Frames, plan};
