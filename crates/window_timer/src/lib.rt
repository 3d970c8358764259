//! The times of a task: intervals that pass again and again, and which of them its next commit and its next window await.
#![tactic(auto)]

mod intervals;
mod times;

pub use intervals::Every;
pub use times::Times;
