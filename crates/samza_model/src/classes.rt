// Which job a task runs.

use crate::{Bin, NoMemory, Plain};
use std::alloc::Global;

/// A shipped job by its class.
#[derive(Debug, PartialEq, Eq, Drop)]
pub enum Class {
    /// Counts words.
    WordCount,
    /// Passes on the first message of each key.
    Dedupe,
    /// Counts the messages of each key in a window.
    SessionCount,
    /// Joins messages with the last value of their key in the stream of this name, `system.stream`.
    TableJoin { table: Bin },
}

impl Plain for Class {
    fn copy(&self, alloc: Global) -> Result<Self, NoMemory> {
        match self {
            Class::WordCount => Ok(Class::WordCount),
            Class::Dedupe => Ok(Class::Dedupe),
            Class::SessionCount => Ok(Class::SessionCount),
            Class::TableJoin { table } => Ok(Class::TableJoin {
                table: table.copy(alloc)?,
            }),
        }
    }

    fn same(&self, other: &Self) -> bool {
        self == other
    }
}
