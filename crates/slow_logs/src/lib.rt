//! Plain, slow programs that spell the bytes of a log and of a checkpoint file. The contract of each is the definition itself.
#![tactic(auto)]

mod spellings;

pub use spellings::{spell_checkpoint, spell_log};
