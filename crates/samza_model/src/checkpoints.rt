// A task's checkpoint.

use crate::{Bin, Items, NoMemory, Plain};
use std::alloc::Global;

/// An input's first uncovered offset.
#[derive(Debug, PartialEq, Eq, Drop)]
pub struct InputMark {
    /// The name, as `system.stream`.
    pub stream: Bin,
    pub partition: u32,
    /// Every offset below it is covered.
    pub next: u64,
}

/// How many records of a store's changelog make its content.
#[derive(Debug, PartialEq, Eq, Drop)]
pub struct StoreMark {
    pub name: Bin,
    pub count: u64,
}

/// A checkpoint: its number, from 1, and what it covers. Number 0 stands for none.
#[derive(Debug, Drop)]
pub struct Checkpoint {
    pub id: u64,
    pub inputs: Items<InputMark>,
    pub stores: Items<StoreMark>,
    pub outputs: Items<Bin>,
}

impl Plain for InputMark {
    fn copy(&self, alloc: Global) -> Result<Self, NoMemory> {
        Ok(InputMark {
            stream: self.stream.copy(alloc)?,
            partition: self.partition,
            next: self.next,
        })
    }

    fn same(&self, other: &Self) -> bool {
        self == other
    }
}

impl Plain for StoreMark {
    fn copy(&self, alloc: Global) -> Result<Self, NoMemory> {
        Ok(StoreMark {
            name: self.name.copy(alloc)?,
            count: self.count,
        })
    }

    fn same(&self, other: &Self) -> bool {
        self == other
    }
}

impl Plain for Checkpoint {
    fn copy(&self, alloc: Global) -> Result<Self, NoMemory> {
        Ok(Checkpoint {
            id: self.id,
            inputs: self.inputs.copy(alloc)?,
            stores: self.stores.copy(alloc)?,
            outputs: self.outputs.copy(alloc)?,
        })
    }

    fn same(&self, other: &Self) -> bool {
        self.id == other.id
            && self.inputs.same(&other.inputs)
            && self.stores.same(&other.stores)
            && self.outputs.same(&other.outputs)
    }
}
