//! The outside of the container: disks with files by number, single files for reading, and the folder that hands them
//! out. `specs/` says what a crash may leave of a disk.
#![tactic(auto)]

mod arms;
mod cells;
mod crashes;
mod disks;
mod handed_out;
mod host_steps;
mod hosts;
mod memory_disk;
mod memory_host;
mod memory_shelf;
mod memory_steps;
mod names;
mod names_held;
mod new_disks;
mod picks;
mod shelves;
mod slots;
mod tallies;
mod traces;

pub use disks::Disk;
pub use handed_out::HandedOut;
pub use hosts::{Host, HostFault};
pub use memory_disk::MemDisk;
pub use memory_host::MemHost;
pub use memory_shelf::MemShelf;
pub use names::{DiskFault, DiskName};
pub use picks::Pick;
pub use shelves::Shelf;
