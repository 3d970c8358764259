// The names of disks, and what a device answers when it fails.

use samza_model::{Bin, NoMemory, Plain};
use std::alloc::Global;
use std::error::Error;
use std::fmt;

/// A disk of a folder: a task's, or a stream's, whose files are its partitions.
#[derive(Debug, PartialEq, Eq, Drop)]
pub enum DiskName {
    Task(u32),
    Stream { system: Bin, stream: Bin },
}

impl Plain for DiskName {
    fn copy(&self, alloc: Global) -> Result<Self, NoMemory> {
        match self {
            DiskName::Task(task) => Ok(DiskName::Task(*task)),
            DiskName::Stream { system, stream } => Ok(DiskName::Stream {
                system: system.copy(alloc)?,
                stream: stream.copy(alloc)?,
            }),
        }
    }

    fn same(&self, other: &Self) -> bool {
        self == other
    }
}

/// A device refused a call. Its count of faults rose.
#[derive(Clone, Copy, Debug, PartialEq, Eq)]
pub enum DiskFault {
    Failed,
}

impl fmt::Display for DiskFault {
    fn fmt<W: fmt::Write>(&self, f: &mut fmt::Formatter<W>) -> fmt::Result {
        write!(f, "device failed")
    }
}

impl Error for DiskFault {}
