// Why a device failed: the call, the place in the folder, and the system's words.
ghost use Rattle.std.specs.Prelude.{◌≡◌, ◌≢◌};
ghost use Rattle.std.specs.IoError.{error_kind};
ghost use Rattle.std.specs.Option.{option_map};
ghost use Rattle.file_host.specs.Causes.{cause_of};
ghost use Rattle.disk_model.specs.declared.hosts.HostFault.TheVariants.{Device, NoMemory as NoRoom};

use crate::failures::Failures;
use disk_model::{DiskName, HostFault};
use samza_model::Bin;
use std::fmt;
use std::io::{Error, ErrorKind};

/// A call of a folder, of a disk or of a shelf that asks something of the system.
#[derive(Clone, Copy, Debug, PartialEq, Eq)]
pub enum FileCall {
    Text,
    Partitions,
    Shelf,
    Lend,
    Size,
    ReadAt,
    WriteAt,
    Cut,
    Sync,
}

impl fmt::Display for FileCall {
    fn fmt<W: fmt::Write>(&self, f: &mut fmt::Formatter<W>) -> fmt::Result {
        f.write_str(match *self {
            FileCall::Text => "text",
            FileCall::Partitions => "partitions",
            FileCall::Shelf => "shelf",
            FileCall::Lend => "lend",
            FileCall::Size => "size",
            FileCall::ReadAt => "read_at",
            FileCall::WriteAt => "write_at",
            FileCall::Cut => "cut",
            FileCall::Sync => "sync",
        })
    }
}

/// What a call is about, below the folder that was entered.
#[derive(Debug, Drop)]
pub enum Place {
    /// The configuration's text.
    Text,
    /// The folder of a disk.
    Folder(DiskName),
    /// A file of a disk.
    File(DiskName, u32),
}

impl fmt::Display for Place {
    fn fmt<W: fmt::Write>(&self, f: &mut fmt::Formatter<W>) -> fmt::Result {
        match self {
            Place::Text => f.write_str("job.properties"),
            Place::Folder(name) => write_folder(f, name),
            Place::File(name, file) => {
                write_folder(f, name)?;
                write!(f, "{file}.log")
            }
        }
    }
}

/// Writes the path of a disk's folder.
fn write_folder<W: fmt::Write>(f: &mut fmt::Formatter<W>, name: &DiskName) -> fmt::Result {
    match name {
        DiskName::Task(task) => write!(f, "tasks/{task}/"),
        DiskName::Stream { system, stream } => {
            f.write_str("streams/")?;
            write_name(f, system)?;
            write_name(f, stream)
        }
    }
}

/// Writes a folder's name and a slash, on one line whatever the name holds.
fn write_name<W: fmt::Write>(f: &mut fmt::Formatter<W>, name: &Bin) -> fmt::Result {
    let text = std::str::from_utf8(name.bytes()).unwrap_or("?");
    write!(f, "{}/", text.escape_debug())
}

/// A call that a device failed, what it was about, and the words of the system.
#[derive(Debug, Drop)]
pub struct Cause {
    pub call: FileCall,
    pub place: Place,
    pub error: Error,
}

impl fmt::Display for Cause {
    fn fmt<W: fmt::Write>(&self, f: &mut fmt::Formatter<W>) -> fmt::Result {
        write!(f, "{} {}: {}", self.call, self.place, self.error)
    }
}

/// What a disk or a shelf keeps of its first failure. It takes no memory.
#[derive(Clone, Copy)]
pub(crate) struct Failure {
    pub(crate) call: FileCall,
    pub(crate) file: u32,
    pub(crate) error: Error,
}

/// The failures of a disk or of a shelf, as the host keeps them.
pub(crate) fn causes_of(name: DiskName, failures: Failures<Failure>) -> Failures<Cause>
    ensures count { result.count ≡ failures.count }
    ensures first { result.first ≡ option_map (cause_of name) failures.first }
{
    let Some(failure) = failures.first else {
        return Failures::none();
    };
    Failures {
        count: failures.count,
        first: Some(Cause {
            call: failure.call,
            place: Place::File(name, failure.file),
            error: failure.error,
        }),
    }
}

/// What the host answers to an error of the system's.
pub(crate) fn fault_of(error: &Error) -> HostFault
    ensures memory { error_kind error.now ≡ ErrorKind.OutOfMemory → result ≡ NoRoom }
    ensures device { error_kind error.now ≢ ErrorKind.OutOfMemory → result ≡ Device }
{
    if error.kind() == ErrorKind::OutOfMemory {
        HostFault::NoMemory
    } else {
        HostFault::Device
    }
}
