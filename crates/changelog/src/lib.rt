//! The changelog of a store: the map that its first records make, what takes the others back, and frames appended to it.
#![tactic(auto)]

mod changelogs;
mod folds;
mod reverts;

pub use changelogs::Changelog;
pub use log_frame::frames_of;
pub use reverts::revert;
