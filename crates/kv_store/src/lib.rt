//! Sorted maps of byte strings: a plain table, and one that knows which keys changed and can take changes back.
#![tactic(auto)]

mod keys;
mod slots;
mod tables;
mod tracked;

pub use tables::Table;
pub use tracked::{TrackedTable, Undo};
