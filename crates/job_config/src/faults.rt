// Why a configuration cannot be read.

use config_values::What;
use samza_model::{Bin, NoMemory};
use std::alloc::{AllocError, AllocFailed};
use std::error::Error;
use std::fmt;

/// Why there is no configuration.
#[derive(Debug, Drop)]
pub enum ConfigFault {
    /// The first bad key in the order of the table, as properties text writes a key, and what is wrong with it.
    Bad { key: Bin, what: What },
    /// Memory was refused.
    NoMemory,
}

impl fmt::Display for ConfigFault {
    fn fmt<W: fmt::Write>(&self, f: &mut fmt::Formatter<W>) -> fmt::Result {
        match self {
            ConfigFault::Bad { key, what } => {
                for byte in key.bytes() {
                    f.write_char(char::from(*byte))?;
                }
                write!(f, ": {what}")
            }
            ConfigFault::NoMemory => write!(f, "no memory"),
        }
    }
}

impl Error for ConfigFault {}

impl From<NoMemory> for ConfigFault {
    ghost use Rattle.std.specs.Prelude.{◌≡◌};
    ghost use Rattle.job_config.specs.declared.faults.ConfigFault.TheVariants.{NoMemory as NoRoom};

    ghost from_gives = { λ _ e. e ≡ NoRoom };

    fn from(_: NoMemory) -> Self {
        ConfigFault::NoMemory
    }
}

impl From<AllocError> for ConfigFault {
    ghost use Rattle.std.specs.Prelude.{◌≡◌};
    ghost use Rattle.job_config.specs.declared.faults.ConfigFault.TheVariants.{NoMemory as NoRoom};

    ghost from_gives = { λ _ e. e ≡ NoRoom };

    fn from(_: AllocError) -> Self {
        ConfigFault::NoMemory
    }
}

impl<T: Drop> From<AllocFailed<T>> for ConfigFault {
    ghost use Rattle.std.specs.Prelude.{◌≡◌};
    ghost use Rattle.job_config.specs.declared.faults.ConfigFault.TheVariants.{NoMemory as NoRoom};

    ghost from_gives = { λ _ e. e ≡ NoRoom };

    fn from(_: AllocFailed<T>) -> Self {
        ConfigFault::NoMemory
    }
}
