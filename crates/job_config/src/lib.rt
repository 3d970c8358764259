//! The configuration of a job: the table of its keys, read from properties text.
//!
//! `specs/` has the table (`Table`), the rows of stores and streams (`Stores`, `Streams`), and how keys are asked for
//! (`Asking`): that gives the values, the first bad key and the keys that nobody asked for. What the value of a key says is
//! in `config_values`.
#![tactic(auto)]

mod config;
mod faults;
mod keys;
mod reading;
mod rows;
mod stores;
mod streams;
mod table;

pub use config::{InputConfig, JobConfig};
pub use config_values::What;
pub use faults::ConfigFault;
