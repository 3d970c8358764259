//! What a core is made of: its stores and outputs, the journal of its events, and what calls do to them, all or nothing.
#![tactic(auto)]

mod asks;
mod beginning;
mod courses;
mod holdings;
mod journals;
mod parts;

pub use asks::{greater_scope, shutdown_of};
pub use beginning::{Begun, begin};
pub use courses::{Course, course_at};
pub use holdings::Holdings;
pub use journals::{Journal, low_at};
pub use parts::{
    act_noted, answers_of, begin_noted, complete_one, deliver_one, earlier, ended, failure_at,
    open_act_noted, recycle,
};
