//! A task's logs: what a commit appends to them, planned, with how far they will reach, and written.
#![tactic(auto)]

mod appending;
mod committing;
mod faults;
mod reaching;
mod writing;

pub use committing::plan_commit;
pub use faults::CommitFault;
pub use writing::{Logs, Reach};
