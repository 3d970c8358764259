// The files of one disk, `<number>.log` each, in a folder of their own.
ghost use Rattle.std.specs.Prelude.{◌≡◌, ◌-◌, ◌^◌, ◌≤◌, ℕ, [], IsTrue, ◌↔◌, MatchOption, IsErr, IfErr, OnOk, Some, None, Ok};
ghost use Rattle.std.specs.Option.{option_or};
ghost use Rattle.samza_model.specs.Counters.{next_number, Rose};
ghost use Rattle.file_host.specs.Causes.{disk_cause};
ghost use Rattle.file_host.specs.Disks.{SameButPaths};
ghost use Rattle.file_host.specs.declared.disks.Entries.TheVariants.{Synced};

use crate::causes::{Cause, Failure, FileCall, causes_of};
use crate::counters::one_more;
use crate::disk_paths::DiskPaths;
use crate::failures::Failures;
use crate::system_calls::{is_file_there, open_or_make, size_of, sync_folder};
use disk_model::{Disk, DiskFault, DiskName};
use std::fs::{File, OpenFile};
use std::io::{Error, Result as IoResult};
use std::os::unix::fs::FileExt;
use std::rt::Files;

/// What a crash of the system may leave of the entries by which a disk's files are found.
#[derive(Clone, Copy, PartialEq, Eq)]
pub(crate) enum Entries {
    /// Those that there are.
    Synced,
    /// A file was made since its folder was synced.
    Made,
    /// Nothing was synced since the disk was lent. An earlier process may have made files and folders and died before it
    /// synced them.
    Unknown,
}

/// Files of one folder. Each call opens its file, making it where it isn't there. It tells no bytes.
///
/// A file's sync also syncs the folder, where a file was made since that was last done, and at first those above it.
#[derive(Drop)]
pub struct FileDisk<R: Files<File = File> + Drop> {
    files: R,
    name: DiskName,
    paths: DiskPaths,
    entries: Entries,
    calls: u64,
    failures: Failures<Failure>,
}

impl<R: Files<File = File> + Drop> FileDisk<R> {
    /// The disk of a folder that is there.
    pub(crate) fn new(files: R, name: DiskName, paths: DiskPaths) -> Self
        ensures name { result.name ≡ name }
        ensures fresh { result.failures.count ≡ 0 }
    {
        FileDisk {
            files,
            name,
            paths,
            entries: Entries::Unknown,
            calls: 0,
            failures: Failures::none(),
        }
    }

    /// How many of its calls failed, and why the first did.
    pub(crate) fn into_failures(self) -> Failures<Cause>
        ensures count { result.count ≡ self.failures.count }
        ensures first { result.first ≡ disk_cause self }
    {
        causes_of(self.name, self.failures)
    }

    /// The file, unless the count of calls stands at its end.
    fn open(&mut self, file: u32) -> IoResult<File>
        ensures same { SameButPaths self.old self.new }
        ensures spent { self.old.calls ≡ 2 ^ 64 - 1 → IsErr result }
    {
        if self.calls == u64::MAX {
            return Err(Error::other("the number of calls is at its end"));
        }
        let path = self.paths.of_file(file);
        if !is_file_there(&self.files, path)? && self.entries == Entries::Synced {
            self.entries = Entries::Made;
        }
        open_or_make(&self.files, path)
    }

    /// Syncs the folder, where a file was made since that was last done, and at first those above it.
    fn sync_entries(&mut self) -> IoResult<()>
        ensures same { SameButPaths self.old self.new }
        ensures synced { OnOk result (self.new.entries ≡ Synced) }
    {
        if self.entries == Entries::Synced {
            return Ok(());
        }
        sync_folder(&self.files, self.paths.folder.as_str())?;
        if self.entries == Entries::Unknown {
            sync_folders(&self.files, self.paths.above.as_slice())?;
        }
        self.entries = Entries::Synced;
        Ok(())
    }

    /// Syncs a file and the entries by which it is found.
    fn sync_found(&mut self, file: u32) -> IoResult<()>
        ensures same { SameButPaths self.old self.new }
        ensures spent { self.old.calls ≡ 2 ^ 64 - 1 → IsErr result }
        ensures synced { OnOk result (self.new.entries ≡ Synced) }
    {
        let opened = self.open(file)?;
        opened.sync_data()?;
        self.sync_entries()
    }

    /// Counts a call, and a fault where nothing came of it. The first failure is kept.
    fn counted<T: Drop>(
        &mut self,
        call: FileCall,
        file: u32,
        done: IoResult<T>,
    ) -> Result<T, DiskFault>
        ensures calls { self.new.calls ≡ next_number self.old.calls }
        ensures later { self.old.failures.count ≤ self.new.failures.count }
        ensures failed { IsErr result → Rose self.old.failures.count self.new.failures.count }
        ensures none { IsErr done → IsErr result }
        ensures stays { OnOk done (self.new.failures ≡ self.old.failures) }
        ensures first { IfErr done (λ e. self.new.failures.first ≡ option_or self.old.failures.first
            (Some (record { call = call; file = file; error = e }))) }
        ensures name { self.new.name ≡ self.old.name }
    {
        self.calls = one_more(self.calls);
        match done {
            Ok(value) => Ok(value),
            Err(error) => {
                self.failures.add(Failure { call, file, error });
                Err(DiskFault::Failed)
            }
        }
    }
}

/// Syncs the entries of each of these folders.
fn sync_folders<R: Files<File = File>>(files: &R, folders: &[String]) -> IoResult<()> {
    for folder in folders {
        sync_folder(files, folder.as_str())?;
    }
    Ok(())
}

impl<R: Files<File = File> + Send + Drop> Disk for FileDisk<R> {
    ghost tells = { ⊥ };

    ghost name = { λ d. d.name };

    ghost reads = { λ d f. [] };

    ghost file_count = { λ d. 0 };

    ghost images = { λ d c. ⊥ };

    ghost images_since = { λ d k c. ⊥ };

    ghost call_number = { λ d. d.calls };

    ghost fault_count = { λ d. d.failures.count };

    ghost read_is_image = { λ d told. absurd told };

    ghost counts_now = { λ d k c told. absurd told };

    ghost only_now = { λ d c told. absurd told };

    ghost none_above = { λ d f told le. absurd told };

    fn size(&mut self, file: u32) -> Result<u64, DiskFault> {
        // not `?`, here and below: a call whose file doesn't open counts too
        let done = match self.open(file) {
            Ok(opened) => size_of(&opened),
            Err(error) => Err(error),
        };
        self.counted(FileCall::Size, file, done)
    }

    fn read_at(&mut self, file: u32, at: u64, into: &mut [u8]) -> Result<(), DiskFault> {
        let done = match self.open(file) {
            Ok(opened) => opened.read_exact_at(into, at),
            Err(error) => Err(error),
        };
        self.counted(FileCall::ReadAt, file, done)
    }

    fn write_at(&mut self, file: u32, at: u64, bytes: &[u8]) -> Result<(), DiskFault> {
        let done = match self.open(file) {
            Ok(opened) => opened.write_all_at(bytes, at),
            Err(error) => Err(error),
        };
        self.counted(FileCall::WriteAt, file, done)
    }

    fn cut(&mut self, file: u32, size: u64) -> Result<(), DiskFault> {
        let done = match self.open(file) {
            Ok(opened) => opened.set_len(size),
            Err(error) => Err(error),
        };
        self.counted(FileCall::Cut, file, done)
    }

    fn sync(&mut self, file: u32) -> Result<(), DiskFault> {
        let done = self.sync_found(file);
        self.counted(FileCall::Sync, file, done)
    }

    fn calls(&self) -> u64 {
        self.calls
    }

    fn faults(&self) -> u64 {
        self.failures.count
    }
}
