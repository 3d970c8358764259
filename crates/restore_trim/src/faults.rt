// Why a task isn't opened.

use samza_model::NoMemory;
use std::error::Error;
use std::fmt;

/// Why a task can't be opened. The first cause in the order in which its files are read.
#[derive(Clone, Copy, Debug, PartialEq, Eq)]
pub enum OpenFault {
    /// A device failed, and its count of faults rose.
    Device,
    /// A file is none of its kind: an input's, or with no input a file of the task, at this byte.
    Damaged {
        input: Option<u32>,
        file: u32,
        at: u64,
    },
    /// The checkpoint's names are not the setup's.
    Shape,
    /// An input's kept offset, or a store's counted records, are more than there are.
    Ahead {
        input: Option<u32>,
        store: Option<u32>,
        wanted: u64,
        held: u64,
    },
    /// A changelog would pass 2^40 bytes with what takes its last records back.
    Limit,
    NoMemory,
}

impl fmt::Display for OpenFault {
    fn fmt<W: fmt::Write>(&self, f: &mut fmt::Formatter<W>) -> fmt::Result {
        match self {
            OpenFault::Device => write!(f, "device failed"),
            OpenFault::Damaged { input, file, at } => {
                write_file(f, *input, *file)?;
                write!(f, " damaged at byte {at}")
            }
            OpenFault::Shape => write!(f, "checkpoint of other names"),
            OpenFault::Ahead {
                input,
                store,
                wanted,
                held,
            } => {
                write_records_of(f, *input, *store)?;
                write!(f, " has {held} of {wanted} records")
            }
            OpenFault::Limit => write!(f, "changelog too long"),
            OpenFault::NoMemory => write!(f, "no memory"),
        }
    }
}

/// Writes an input, or with none a file of the task.
fn write_file<W: fmt::Write>(
    f: &mut fmt::Formatter<W>,
    input: Option<u32>,
    file: u32,
) -> fmt::Result {
    match input {
        Some(input) => write!(f, "input {input}"),
        None => write!(f, "file {file}"),
    }
}

/// Writes what has too few records: an input, or with none a store.
fn write_records_of<W: fmt::Write>(
    f: &mut fmt::Formatter<W>,
    input: Option<u32>,
    store: Option<u32>,
) -> fmt::Result {
    match (input, store) {
        (Some(input), _) => write!(f, "input {input}"),
        (None, Some(store)) => write!(f, "store {store}"),
        (None, None) => write!(f, "task"),
    }
}

impl Error for OpenFault {}

impl From<NoMemory> for OpenFault {
    ghost use Rattle.std.specs.Prelude.{◌≡◌};
    ghost use Rattle.restore_trim.specs.declared.faults.OpenFault.TheVariants.{NoMemory as NoRoom};

    ghost from_gives = { λ _ e. e ≡ NoRoom };

    fn from(_: NoMemory) -> Self {
        OpenFault::NoMemory
    }
}
