// Why a text cannot be read.

use samza_model::NoMemory;
use std::alloc::{AllocError, AllocFailed};
use std::error::Error;
use std::fmt;

/// Why there are no pairs.
#[derive(Clone, Copy, Debug, PartialEq, Eq)]
pub enum PropsFault {
    /// The first malformed `\u`: its backslash stands in this natural line, from 1.
    BadEscape { line: u64 },
    /// Memory was refused.
    NoMemory,
}

impl fmt::Display for PropsFault {
    fn fmt<W: fmt::Write>(&self, f: &mut fmt::Formatter<W>) -> fmt::Result {
        match self {
            PropsFault::BadEscape { line } => write!(f, "malformed escape in line {line}"),
            PropsFault::NoMemory => write!(f, "no memory"),
        }
    }
}

impl Error for PropsFault {}

impl From<NoMemory> for PropsFault {
    ghost use Rattle.std.specs.Prelude.{◌≡◌};
    ghost use Rattle.props_text.specs.declared.faults.PropsFault.TheVariants.{NoMemory as NoRoom};

    ghost from_gives = { λ _ e. e ≡ NoRoom };

    fn from(_: NoMemory) -> Self {
        PropsFault::NoMemory
    }
}

impl From<AllocError> for PropsFault {
    ghost use Rattle.std.specs.Prelude.{◌≡◌};
    ghost use Rattle.props_text.specs.declared.faults.PropsFault.TheVariants.{NoMemory as NoRoom};

    ghost from_gives = { λ _ e. e ≡ NoRoom };

    fn from(_: AllocError) -> Self {
        PropsFault::NoMemory
    }
}

impl<T: Drop> From<AllocFailed<T>> for PropsFault {
    ghost use Rattle.std.specs.Prelude.{◌≡◌};
    ghost use Rattle.props_text.specs.declared.faults.PropsFault.TheVariants.{NoMemory as NoRoom};

    ghost from_gives = { λ _ e. e ≡ NoRoom };

    fn from(_: AllocFailed<T>) -> Self {
        PropsFault::NoMemory
    }
}
