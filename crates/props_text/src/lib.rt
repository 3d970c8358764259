//! Properties text, after `java.util.Properties`: reading it, the map that it stands for, and the one written form.
//!
//! `specs/` says what a text stands for in three passes over whole lists: natural lines (`Lines`), logical lines
//! (`Logical`) and pairs (`Pairs`), and has the written form (`Written`). The code goes through a text once.
#![tactic(auto)]

mod escapes;
mod faults;
mod join;
mod laws;
mod lines;
mod pairs;
mod parts;
mod reading;
mod unit;
mod writing;

pub use faults::PropsFault;
pub use laws::written_comes_back;
pub use pairs::Pairs;
pub use reading::read;
pub use writing::{write, write_text};
