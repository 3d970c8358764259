//! How a task is opened: its files restored, its input read, and its first message found.
#![tactic(auto)]

mod laws;
mod opening;

pub use laws::{
    open_task_opens_or_says_why, open_task_opens_with_one_cause, opens_or_says_why,
    opens_with_one_cause,
};
pub use opening::{OpenedTask, open_task};
pub use restore_trim::OpenFault;
