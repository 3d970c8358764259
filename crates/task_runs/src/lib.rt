//! One run of a task: opened on its disk and its input, run to its end, told of, and closed.
//!
//! `specs/` has what a run made of its files (`Runs`), how it ended (`Ends`, `Worked`), and what a crash at any moment leaves
//! (`Leaving`).
#![tactic(auto)]

mod answers;
mod laws;
mod runs;

pub use laws::what_ended_is_the_fold;
pub use runs::run_task;
