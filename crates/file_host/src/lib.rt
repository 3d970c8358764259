//! A folder of real files as the outside: the thin trusted edge. These adapters loop over std's read and write, count
//! faults, and tell nothing of what a file holds.
#![tactic(auto)]

mod causes;
mod counters;
mod disk_paths;
mod disks;
mod entered;
mod failures;
mod folder_steps;
mod folders;
mod handles;
mod paths;
mod shelves;
mod system_calls;

pub use causes::{Cause, FileCall, Place};
pub use disks::FileDisk;
pub use folders::FileHost;
pub use shelves::FileShelf;
