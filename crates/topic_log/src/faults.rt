// Why a log refused.
ghost use Rattle.std.specs.Prelude.{◌≡◌, ◌↔◌, IsTrue};

use samza_model::NoMemory;
use std::alloc::AllocError;
use std::error::Error;
use std::fmt;

/// Why a call on a log refused.
#[derive(Clone, Copy, Debug, PartialEq, Eq)]
pub enum LogFault {
    /// The disk failed, and its count of faults rose.
    Device,
    /// The file is no log: at this byte, counted from 0, reading one stopped.
    Damaged { at: u64 },
    /// The file would pass 2^40 bytes.
    Limit,
    /// An earlier call on this log answered `Device`. Open it anew.
    Broken,
    /// Memory was refused.
    NoMemory,
}

impl LogFault {
    pub(crate) fn is_device(self) -> bool
        ensures { IsTrue result ↔ (self ≡ LogFault.Device) }
    {
        match self {
            LogFault::Device => true,
            _ => false,
        }
    }
}

impl fmt::Display for LogFault {
    fn fmt<W: fmt::Write>(&self, f: &mut fmt::Formatter<W>) -> fmt::Result {
        match self {
            LogFault::Device => write!(f, "device failed"),
            LogFault::Damaged { at } => write!(f, "damaged at byte {at}"),
            LogFault::Limit => write!(f, "log too long"),
            LogFault::Broken => write!(f, "log is broken"),
            LogFault::NoMemory => write!(f, "no memory"),
        }
    }
}

impl Error for LogFault {}

impl From<NoMemory> for LogFault {
    ghost use Rattle.std.specs.Prelude.{◌≡◌};
    ghost use Rattle.topic_log.specs.declared.faults.LogFault.TheVariants.{NoMemory as NoRoom};

    ghost from_gives = { λ _ e. e ≡ NoRoom };

    fn from(_: NoMemory) -> Self {
        LogFault::NoMemory
    }
}

impl From<AllocError> for LogFault {
    ghost use Rattle.std.specs.Prelude.{◌≡◌};
    ghost use Rattle.topic_log.specs.declared.faults.LogFault.TheVariants.{NoMemory as NoRoom};

    ghost from_gives = { λ _ e. e ≡ NoRoom };

    fn from(_: AllocError) -> Self {
        LogFault::NoMemory
    }
}
