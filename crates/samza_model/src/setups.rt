// What a task is set up with.

use crate::{Bin, Items, NoMemory, Plain, Ssp, TaskName};
use std::alloc::Global;

/// Where an input without a kept offset begins.
#[derive(Clone, Copy, Debug, PartialEq, Eq)]
pub enum OffsetDefault {
    /// At its first message.
    Oldest,
    /// Behind its last message.
    Upcoming,
}

/// One input of a task.
#[derive(Debug, Drop)]
pub struct InputSetup {
    pub ssp: Ssp,
    /// Where it begins if no offset is kept.
    pub fallback: OffsetDefault,
    /// Whether a kept offset is passed over.
    pub reset: bool,
}

/// One store of a task.
#[derive(Debug, Drop)]
pub struct StoreSetup {
    pub name: Bin,
    /// How many recent entries are held, at least 1.
    pub cache: u32,
    /// The greatest number of records in one frame of the changelog, 1 to 4,096.
    pub batch: u32,
}

/// A task's setup. Inputs rise by the bytes of `system.stream` and then by partition, stores by name.
#[derive(Debug, Drop)]
pub struct Setup {
    pub task: TaskName,
    pub inputs: Items<InputSetup>,
    pub stores: Items<StoreSetup>,
    /// Each a name as `system.stream`, in the configuration's order.
    pub outputs: Items<Bin>,
    /// The greatest number of messages in flight, at least 1.
    pub concurrency: u32,
    /// The greatest distance of the next offset from the first one that isn't completed, at least 1.
    pub span: u32,
    /// Whether a commit may come while messages are in flight.
    pub async_commit: bool,
    /// Intervals in milliseconds; none means never.
    pub window_ms: Option<u64>,
    pub commit_ms: Option<u64>,
    pub timeout_ms: Option<u64>,
}

impl Plain for OffsetDefault {
    fn copy(&self, _alloc: Global) -> Result<Self, NoMemory> {
        Ok(*self)
    }

    fn same(&self, other: &Self) -> bool {
        self == other
    }
}

impl Plain for InputSetup {
    fn copy(&self, alloc: Global) -> Result<Self, NoMemory> {
        Ok(InputSetup {
            ssp: self.ssp.copy(alloc)?,
            fallback: self.fallback,
            reset: self.reset,
        })
    }

    fn same(&self, other: &Self) -> bool {
        self.ssp.same(&other.ssp)
            && self.fallback.same(&other.fallback)
            && self.reset == other.reset
    }
}

impl Plain for StoreSetup {
    fn copy(&self, alloc: Global) -> Result<Self, NoMemory> {
        Ok(StoreSetup {
            name: self.name.copy(alloc)?,
            cache: self.cache,
            batch: self.batch,
        })
    }

    fn same(&self, other: &Self) -> bool {
        self.name.same(&other.name) && self.cache == other.cache && self.batch == other.batch
    }
}

impl Plain for Setup {
    fn copy(&self, alloc: Global) -> Result<Self, NoMemory> {
        Ok(Setup {
            task: self.task,
            inputs: self.inputs.copy(alloc)?,
            stores: self.stores.copy(alloc)?,
            outputs: self.outputs.copy(alloc)?,
            concurrency: self.concurrency,
            span: self.span,
            async_commit: self.async_commit,
            window_ms: self.window_ms,
            commit_ms: self.commit_ms,
            timeout_ms: self.timeout_ms,
        })
    }

    fn same(&self, other: &Self) -> bool {
        self.task.same(&other.task)
            && self.inputs.same(&other.inputs)
            && self.stores.same(&other.stores)
            && self.outputs.same(&other.outputs)
            && self.concurrency == other.concurrency
            && self.span == other.span
            && self.async_commit == other.async_commit
            && self.window_ms.same(&other.window_ms)
            && self.commit_ms.same(&other.commit_ms)
            && self.timeout_ms.same(&other.timeout_ms)
    }
}
