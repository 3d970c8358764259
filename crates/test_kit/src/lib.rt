//! What the crates of tests share: small records, messages, a task's setup and checkpoint, what is looked at, and files that are
//! spelled field by field.
#![tactic(auto)]

mod files;
mod looks;
mod rows;
mod tasks;

pub use files::{File, Piece, joined};
pub use looks::{are_records, has_pairs, is_text};
pub use rows::{Row, bin, list, record, records, removal, set};
pub use tasks::{checkpoint, message, setup};
