//! Worked examples of a task's parts in memory: windows of offsets, callbacks in flight, packed events, the core that they make,
//! and the unit over a disk. What is wanted was found by hand.
#![tactic(auto)]

#[cfg(test)]
mod callbacks;
#[cfg(test)]
mod cores;
#[cfg(test)]
mod packed;
#[cfg(test)]
mod questions;
#[cfg(test)]
mod schedules;
#[cfg(test)]
mod spans;
#[cfg(test)]
mod steps;
#[cfg(test)]
mod unit_calls;
#[cfg(test)]
mod units;
#[cfg(test)]
mod windows;
