//! The pure machine of a task: its callbacks, windows, stores and outputs, and the journal of its events.
#![tactic(auto)]

mod acting;
mod applied;
mod applying;
mod asking;
mod beginning;
mod cores;
mod faults;
mod planning;
mod plans;
mod questions;
mod seen;
mod stepping;
mod telling;
mod windows;

pub use applied::{Applied, Ask};
pub use core_parts::Course;
pub use cores::Core;
pub use faults::{ActFault, ApplyFault, DeliverFault, OpenWindowFault, PlanFault, QuestionFault};
pub use plans::{Kept, Plan};
pub use questions::Question;
pub use seen::LaneState;
pub use stepping::{Stepped, step};
pub use telling::Status;
