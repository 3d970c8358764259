//! What the value of a key says: numbers, intervals, flags, words, names and lists of names. Each reader takes the text of a
//! value, or none where the key isn't there, and gives what it says, or what is wrong with it.
//!
//! `specs/` has what each kind of value says (`Numbers`, `Values`, `Lists`). Which keys there are is no matter of this crate.
#![tactic(auto)]

mod faults;
pub mod lists;
pub mod names;
mod numbers;
pub mod shipped;
pub mod values;

pub use faults::What;
