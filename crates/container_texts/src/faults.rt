// Why a run ends otherwise than well, and the status that tells it.
ghost use Rattle.std.specs.Prelude.{◌≡◌, ◌≢◌};
ghost use Rattle.container_texts.specs.Statuses.{failure_status, open_status, status_of};

use config_values::What;
use restore_trim::OpenFault;
use samza_model::{Bin, Failure, NoMemory, Ssp, TaskName, Why};
use std::alloc::Global;
use std::error::Error;
use std::fmt;

/// Why a run ended otherwise than well: the first cause in the order of work.
#[derive(Debug, Drop)]
pub enum RunFault {
    /// The words are no command; the place of the first one that is refused, from 1.
    Words { place: u64 },
    /// The folder has no `job.properties`.
    NoText,
    /// `job.properties` has more than 1,048,576 bytes.
    TextLimit,
    /// The first malformed `\u` of `job.properties`, by the natural line of its backslash, from 1.
    BadEscape { line: u64 },
    /// The first bad key of the configuration, as properties text writes it, and what is wrong with it.
    BadKey { key: Bin, what: What },
    /// This key, or file, asks for something that isn't built yet.
    NotBuilt { key: Bin },
    /// The input stream has no partition.
    NoPartition,
    /// A device failed, and the host's count of faults rose.
    Device,
    /// The task can't be opened.
    NotOpened(OpenFault),
    /// The job failed a message.
    Failed(Failure),
    /// A file would pass 2^40 bytes.
    Limit,
    NoMemory,
}

/// One phrase a cause. The line that the program prints of it is `fault_line`'s, which names the task and its inputs too.
impl fmt::Display for RunFault {
    fn fmt<W: fmt::Write>(&self, f: &mut fmt::Formatter<W>) -> fmt::Result {
        match self {
            RunFault::Words { place } => write!(f, "no command at word {place}"),
            RunFault::NoText => write!(f, "no job.properties"),
            RunFault::TextLimit => write!(f, "job.properties too long"),
            RunFault::BadEscape { line } => write!(f, "malformed escape in line {line}"),
            RunFault::BadKey { key, what } => {
                write_key(f, key)?;
                write!(f, ": {what}")
            }
            RunFault::NotBuilt { key } => {
                write_key(f, key)?;
                write!(f, ": not built")
            }
            RunFault::NoPartition => write!(f, "input has no partition"),
            RunFault::Device => write!(f, "device failed"),
            RunFault::NotOpened(fault) => write!(f, "task not opened: {fault}"),
            RunFault::Failed(failure) => {
                write_turn(f, failure.place)?;
                write_why(f, failure.why)
            }
            RunFault::Limit => write!(f, "file too long"),
            RunFault::NoMemory => write!(f, "no memory"),
        }
    }
}

/// Writes a key, each byte as the character of its number.
fn write_key<W: fmt::Write>(f: &mut fmt::Formatter<W>, key: &Bin) -> fmt::Result {
    for byte in key.bytes() {
        f.write_char(char::from(*byte))?;
    }
    Ok(())
}

/// Writes the turn that failed: a message by its offset and its input, or the window.
fn write_turn<W: fmt::Write>(f: &mut fmt::Formatter<W>, place: Option<(u32, u64)>) -> fmt::Result {
    match place {
        Some((input, offset)) => write!(f, "message {offset} of input {input} failed: "),
        None => write!(f, "window failed: "),
    }
}

fn write_why<W: fmt::Write>(f: &mut fmt::Formatter<W>, why: Why) -> fmt::Result {
    match why {
        Why::Code(code) => write!(f, "code {code}"),
        Why::TooMany => write!(f, "too many acts"),
        Why::Limits => write!(f, "act outside the limits"),
        Why::Expired { delivered, now } => write!(f, "delivered {delivered} now {now}"),
    }
}

impl Error for RunFault {}

impl From<NoMemory> for RunFault {
    ghost use Rattle.std.specs.Prelude.{◌≡◌};
    ghost use Rattle.container_texts.specs.declared.faults.RunFault.TheVariants.{NoMemory as NoRoom};

    ghost from_gives = { λ _ e. e ≡ NoRoom };

    fn from(_: NoMemory) -> Self {
        RunFault::NoMemory
    }
}

fn open_status(fault: &OpenFault) -> u8
    ensures status { result ≡ open_status fault.now }
    ensures other { (result ≢ 0) × (result ≢ 7) }
{
    match fault {
        OpenFault::Device => 4,
        OpenFault::Damaged { .. } | OpenFault::Shape | OpenFault::Ahead { .. } => 6,
        OpenFault::Limit => 9,
        OpenFault::NoMemory => 8,
    }
}

fn failure_status(why: Why) -> u8
    ensures status { result ≡ failure_status why }
    ensures other { (result ≢ 0) × (result ≢ 7) }
{
    match why {
        Why::Code(_) | Why::TooMany | Why::Limits => 5,
        Why::Expired { .. } => 11,
    }
}

impl RunFault {
    /// The status with which the program ends: 2 for the words, 3 for the configuration, 4 where a device failed, 5 where
    /// the job failed, 6 for files that can't be run on, 8 for want of memory, 9 for a limit, and 11 where a message's time ran
    /// out.
    pub fn status(&self) -> u8
        ensures status { result ≡ status_of self.now }
        ensures other { (result ≢ 0) × (result ≢ 7) }
    {
        match self {
            RunFault::Words { .. } => 2,
            RunFault::NoText
            | RunFault::BadEscape { .. }
            | RunFault::BadKey { .. }
            | RunFault::NotBuilt { .. }
            | RunFault::NoPartition => 3,
            RunFault::Device => 4,
            RunFault::NotOpened(fault) => open_status(fault),
            RunFault::Failed(failure) => failure_status(failure.why),
            RunFault::TextLimit | RunFault::Limit => 9,
            RunFault::NoMemory => 8,
        }
    }
}

/// Why a command stopped, with the task and the inputs that the line of a task's fault names: none, where it didn't come to its
/// task.
#[derive(Debug, Drop)]
pub struct Stopped {
    pub fault: RunFault,
    pub task: TaskName,
    pub inputs: Vec<Ssp>,
}

impl Stopped {
    /// Before there is a task.
    pub fn before_task(alloc: Global, fault: RunFault) -> Stopped
        ensures { result.fault ≡ fault }
    {
        Stopped {
            fault,
            task: TaskName(0),
            inputs: Vec::new(alloc),
        }
    }
}
