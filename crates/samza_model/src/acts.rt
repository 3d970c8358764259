// What a job does, one act after another, and what it is answered.

use crate::{Bin, NoMemory, Plain, Record};
use std::alloc::Global;

/// Whom a request is for.
#[derive(Clone, Copy, Debug, PartialEq, Eq)]
pub enum Scope {
    CurrentTask,
    AllTasks,
}

/// One act of a job. Stores and outputs go by their number in the setup.
#[derive(Debug, PartialEq, Eq, Drop)]
pub enum Act {
    /// Asks for a key's value.
    Get { store: u32, key: Bin },
    /// Asks for the pair with the least key that isn't below this one.
    Next { store: u32, key: Bin },
    Put { store: u32, key: Bin, value: Bin },
    Delete { store: u32, key: Bin },
    Send { output: u32, body: Record },
    AskCommit(Scope),
    AskShutdown(Scope),
    /// The message, or the window, is done.
    Done,
    /// It failed, with a code of the job's own.
    Fail(u32),
}

/// What an act is answered.
#[derive(Debug, PartialEq, Eq, Drop)]
pub enum Answer {
    /// The value of a `Get`.
    Found(Bin),
    /// The key and the value of a `Next`.
    Pair(Bin, Bin),
    /// There is none.
    Missing,
    /// The act was made.
    Noted,
}

impl Plain for Scope {
    fn copy(&self, _alloc: Global) -> Result<Self, NoMemory> {
        Ok(*self)
    }

    fn same(&self, other: &Self) -> bool {
        self == other
    }
}

impl Plain for Act {
    fn copy(&self, alloc: Global) -> Result<Self, NoMemory> {
        match self {
            Act::Get { store, key } => Ok(Act::Get {
                store: *store,
                key: key.copy(alloc)?,
            }),
            Act::Next { store, key } => Ok(Act::Next {
                store: *store,
                key: key.copy(alloc)?,
            }),
            Act::Put { store, key, value } => Ok(Act::Put {
                store: *store,
                key: key.copy(alloc)?,
                value: value.copy(alloc)?,
            }),
            Act::Delete { store, key } => Ok(Act::Delete {
                store: *store,
                key: key.copy(alloc)?,
            }),
            Act::Send { output, body } => Ok(Act::Send {
                output: *output,
                body: body.copy(alloc)?,
            }),
            Act::AskCommit(scope) => Ok(Act::AskCommit(*scope)),
            Act::AskShutdown(scope) => Ok(Act::AskShutdown(*scope)),
            Act::Done => Ok(Act::Done),
            Act::Fail(code) => Ok(Act::Fail(*code)),
        }
    }

    fn same(&self, other: &Self) -> bool {
        self == other
    }
}

impl Plain for Answer {
    fn copy(&self, alloc: Global) -> Result<Self, NoMemory> {
        match self {
            Answer::Found(value) => Ok(Answer::Found(value.copy(alloc)?)),
            Answer::Pair(key, value) => Ok(Answer::Pair(key.copy(alloc)?, value.copy(alloc)?)),
            Answer::Missing => Ok(Answer::Missing),
            Answer::Noted => Ok(Answer::Noted),
        }
    }

    fn same(&self, other: &Self) -> bool {
        self == other
    }
}
