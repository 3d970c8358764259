//! What the container sees of its machine: disks and folders in memory, real folders, sinks and turns, where calls go well and where they
//! are told to fail.
#![tactic(auto)]

#[cfg(test)]
mod comparing;
#[cfg(test)]
mod folders;
#[cfg(test)]
mod memory;
#[cfg(test)]
mod sinks;
#[cfg(test)]
mod turns;
