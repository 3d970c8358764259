//! The types of a stream container's public surface, and the definitions that its contracts are written in.
//!
//! `specs/` has one file a subject: what a job means and what its acts do to stores and outputs, the frames of a log,
//! the checkpoint record, what a task's files restore to, and the fold of a list of messages.
#![tactic(auto)]

mod acts;
mod bytes;
mod checkpoints;
mod classes;
mod events;
mod flights;
mod jobs;
mod limits;
mod lists;
mod marks;
mod memory;
mod messages;
mod names;
mod setups;
mod turns;
mod values;

pub use acts::{Act, Answer, Scope};
pub use bytes::Bin;
pub use checkpoints::{Checkpoint, InputMark, StoreMark};
pub use classes::Class;
pub use events::Event;
pub use flights::Flight;
pub use jobs::Job;
pub use limits::{FILE_LIMIT, FRAME_BATCH, KEY_LIMIT, OUTPUT_LIMIT, STORE_LIMIT, VALUE_LIMIT};
pub use lists::{Items, put};
pub use marks::KeptMark;
pub use memory::NoMemory;
pub use messages::{Envelope, Record, Ssp, TaskName};
pub use names::topic_name;
pub use setups::{InputSetup, OffsetDefault, Setup, StoreSetup};
pub use turns::{Failure, Turn, Why};
pub use values::Plain;
