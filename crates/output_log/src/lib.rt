//! What a task's outputs are sent between its commits: the records of each, oldest first, and how many went before.
#![tactic(auto)]

mod outputs;
mod queues;

pub use outputs::Outputs;
