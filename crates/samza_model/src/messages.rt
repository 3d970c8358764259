// Messages and where they stand.

use crate::{Bin, NoMemory, Plain};
use std::alloc::Global;

/// A key and a value. One without a value deletes its key where it stands in a changelog.
#[derive(Debug, PartialEq, Eq, Drop)]
pub struct Record {
    pub key: Bin,
    pub value: Option<Bin>,
}

/// A partition of a system's stream.
#[derive(Debug, PartialEq, Eq, Drop)]
pub struct Ssp {
    pub system: Bin,
    pub stream: Bin,
    pub partition: u32,
}

/// The task of a partition number, printed as `Partition n`.
#[derive(Clone, Copy, Debug, PartialEq, Eq)]
pub struct TaskName(pub u32);

/// A message with the place at which it was read.
#[derive(Debug, PartialEq, Eq, Drop)]
pub struct Envelope {
    pub ssp: Ssp,
    pub offset: u64,
    pub body: Record,
}

impl Plain for Record {
    fn copy(&self, alloc: Global) -> Result<Self, NoMemory> {
        Ok(Record {
            key: self.key.copy(alloc)?,
            value: self.value.copy(alloc)?,
        })
    }

    fn same(&self, other: &Self) -> bool {
        self == other
    }
}

impl Plain for Ssp {
    fn copy(&self, alloc: Global) -> Result<Self, NoMemory> {
        Ok(Ssp {
            system: self.system.copy(alloc)?,
            stream: self.stream.copy(alloc)?,
            partition: self.partition,
        })
    }

    fn same(&self, other: &Self) -> bool {
        self == other
    }
}

impl Plain for TaskName {
    fn copy(&self, _alloc: Global) -> Result<Self, NoMemory> {
        Ok(*self)
    }

    fn same(&self, other: &Self) -> bool {
        self == other
    }
}

impl Plain for Envelope {
    fn copy(&self, alloc: Global) -> Result<Self, NoMemory> {
        Ok(Envelope {
            ssp: self.ssp.copy(alloc)?,
            offset: self.offset,
            body: self.body.copy(alloc)?,
        })
    }

    fn same(&self, other: &Self) -> bool {
        self == other
    }
}
