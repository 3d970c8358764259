//! One task's unit: the job's acts on the messages of its input, and commits, over a disk.
#![tactic(auto)]

mod acting;
mod applying;
mod committing;
mod delivering;
mod opening;
mod telling;
mod units;

pub use committing::Mark;
pub use task_core::{
    ActFault, Applied, ApplyFault, Ask, DeliverFault, LaneState, Question, QuestionFault, Status,
    Stepped, step,
};
pub use unit_logs::CommitFault;
pub use unit_opening::OpenFault;
pub use units::TaskUnit;
