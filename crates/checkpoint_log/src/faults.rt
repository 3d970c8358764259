// Why a record gives no checkpoint.

use samza_model::NoMemory;
use std::alloc::{AllocError, AllocFailed};
use std::error::Error;
use std::fmt;

/// Why there is no checkpoint.
#[derive(Clone, Copy, Debug, PartialEq, Eq)]
pub enum CheckpointFault {
    /// The record spells none.
    Bad,
    /// Memory was refused.
    NoMemory,
}

impl fmt::Display for CheckpointFault {
    fn fmt<W: fmt::Write>(&self, f: &mut fmt::Formatter<W>) -> fmt::Result {
        match self {
            CheckpointFault::Bad => write!(f, "no checkpoint"),
            CheckpointFault::NoMemory => write!(f, "no memory"),
        }
    }
}

impl Error for CheckpointFault {}

impl From<NoMemory> for CheckpointFault {
    ghost use Rattle.std.specs.Prelude.{◌≡◌};
    ghost use Rattle.checkpoint_log.specs.declared.faults.CheckpointFault.TheVariants.{NoMemory as NoRoom};

    ghost from_gives = { λ _ e. e ≡ NoRoom };

    fn from(_: NoMemory) -> Self {
        CheckpointFault::NoMemory
    }
}

impl From<AllocError> for CheckpointFault {
    ghost use Rattle.std.specs.Prelude.{◌≡◌};
    ghost use Rattle.checkpoint_log.specs.declared.faults.CheckpointFault.TheVariants.{NoMemory as NoRoom};

    ghost from_gives = { λ _ e. e ≡ NoRoom };

    fn from(_: AllocError) -> Self {
        CheckpointFault::NoMemory
    }
}

impl<T: Drop> From<AllocFailed<T>> for CheckpointFault {
    ghost use Rattle.std.specs.Prelude.{◌≡◌};
    ghost use Rattle.checkpoint_log.specs.declared.faults.CheckpointFault.TheVariants.{NoMemory as NoRoom};

    ghost from_gives = { λ _ e. e ≡ NoRoom };

    fn from(_: AllocFailed<T>) -> Self {
        CheckpointFault::NoMemory
    }
}
