// One file of a folder, for reading.
ghost use Rattle.std.specs.Prelude.{◌≡◌, ◌^◌, ◌≤◌, [], IsErr, IfOk, IfErr, OnOk, Ok, Some, None};
ghost use Rattle.std.specs.Option.{option_or};
ghost use Rattle.samza_model.specs.Counters.{next_number, Rose};
ghost use Rattle.file_host.specs.Causes.{shelf_cause};

use crate::causes::{Cause, Failure, FileCall, causes_of};
use crate::failures::Failures;
use crate::system_calls::size_of;
use disk_model::{DiskFault, DiskName, Shelf};
use std::fs::File;
use std::io::{Error, ErrorKind, Result as IoResult};
use std::os::unix::fs::FileExt;

/// The greatest size of a file that a shelf shows.
const GREATEST_SIZE: u64 = 1 << 48;

/// One file, which stays open, or none where it isn't there. It tells no bytes.
#[derive(Drop)]
pub struct FileShelf {
    opened: Option<File>,
    name: DiskName,
    file: u32,
    failures: Failures<Failure>,
}

impl FileShelf {
    /// The shelf of an opened file, or of one that isn't there.
    pub(crate) fn new(opened: Option<File>, name: DiskName, file: u32) -> Self
        ensures name { result.name ≡ name }
        ensures file { result.file ≡ file }
        ensures fresh { result.failures.count ≡ 0 }
    {
        FileShelf {
            opened,
            name,
            file,
            failures: Failures::none(),
        }
    }

    /// The disk that the file is of.
    pub(crate) fn disk_name(&self) -> &DiskName
        ensures { result.now ≡ self.now.name }
    {
        &self.name
    }

    /// How many of its calls failed, and why the first did.
    pub(crate) fn into_failures(self) -> Failures<Cause>
        ensures count { result.count ≡ self.failures.count }
        ensures first { result.first ≡ shelf_cause self }
    {
        causes_of(self.name, self.failures)
    }

    /// Counts a fault where nothing came of a call. The first failure is kept.
    fn counted<T: Drop>(&mut self, call: FileCall, done: IoResult<T>) -> Result<T, DiskFault>
        ensures value { IfOk result (λ x. done ≡ Ok x) }
        ensures later { self.old.failures.count ≤ self.new.failures.count }
        ensures failed { IsErr result → Rose self.old.failures.count self.new.failures.count }
        ensures stays { OnOk done (self.new.failures ≡ self.old.failures) }
        ensures first { IfErr done (λ e. self.new.failures.first ≡ option_or self.old.failures.first
            (Some (record { call = call; file = self.old.file; error = e }))) }
        ensures name { self.new.name ≡ self.old.name }
        ensures file { self.new.file ≡ self.old.file }
    {
        match done {
            Ok(value) => Ok(value),
            Err(error) => {
                let file = self.file;
                self.failures.add(Failure { call, file, error });
                Err(DiskFault::Failed)
            }
        }
    }
}

fn bounded_size(file: &File) -> IoResult<u64>
    ensures { IfOk result (λ n. n ≤ 2 ^ 48) }
{
    let size = size_of(file)?;
    if size <= GREATEST_SIZE {
        Ok(size)
    } else {
        Err(Error::new(ErrorKind::FileTooLarge, "longer than 2^48 bytes"))
    }
}

impl Shelf for FileShelf {
    ghost tells = { ⊥ };

    ghost name = { λ s. s.name };

    ghost file = { λ s. s.file };

    ghost bytes = { λ s. [] };

    ghost fault_count = { λ s. s.failures.count };

    fn size(&mut self) -> Result<u64, DiskFault> {
        let done = match &self.opened {
            Some(opened) => bounded_size(opened),
            None => Ok(0),
        };
        self.counted(FileCall::Size, done)
    }

    fn read_at(&mut self, at: u64, into: &mut [u8]) -> Result<(), DiskFault> {
        let done = match &self.opened {
            Some(opened) => opened.read_exact_at(into, at),
            None if into.is_empty() => Ok(()),
            None => Err(Error::from(ErrorKind::UnexpectedEof)),
        };
        self.counted(FileCall::ReadAt, done)
    }

    fn faults(&self) -> u64 {
        self.failures.count
    }
}
