//! A task's restart from its files: the last checkpoint, each store's content at it, and changelogs whose last records, which
//! no checkpoint counts, are taken back.
#![tactic(auto)]

mod faults;
mod laws;
mod naming;
mod opening;
mod restoring;
mod reverting;

pub use faults::OpenFault;
pub use laws::restores_to_one;
pub use restoring::{Restored, restore};
