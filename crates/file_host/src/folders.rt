// A folder of real files.
ghost use Rattle.std.specs.Prelude.{◌≡◌, ◌≢◌, ◌≤◌, [], Err, None, Some, IsSome};
ghost use Rattle.std.specs.Option.{option_copied, option_or};
ghost use Rattle.std.specs.IoError.{error_kind};
ghost use Rattle.samza_model.specs.Counters.{Rose, added};
ghost use Rattle.disk_model.specs.Folders.{Folder};
ghost use Rattle.disk_model.specs.Handles.{AsMany, NoneOut, OneMore};
ghost use Rattle.disk_model.specs.declared.hosts.HostFault.TheVariants.{Device, NoMemory as NoRoom};
ghost use Rattle.file_host.specs.Causes.{disk_cause, shelf_cause};
ghost use Rattle.file_host.specs.Folders.{folder_cause, folder_disks_out, folder_entered, folder_shelves_out, folder_faults};

use crate::causes::{Cause, FileCall, Place, fault_of};
use crate::entered::Entered;
use crate::failures::Failures;
use crate::folder_steps::{count_partitions, make_folder, open_file, read_text};
use crate::handles::{lend_disk, lend_shelf};
use crate::{FileDisk, FileShelf};
use disk_model::{Disk, DiskName, HandedOut, Host, HostFault, Shelf};
use samza_model::{Bin, Plain};
use std::alloc::Global;
use std::fs::File;
use std::io::{Error, ErrorKind};
use std::rt::Files;

/// A folder of real files: `job.properties`, `streams/<system>/<stream>/<partition>.log` and
/// `tasks/<number>/<file>.log`. It tells no bytes. Before `enter` it is the folder where the process runs.
///
/// What is no regular file is a device's failure, and no call waits for one. Of a configuration's text at most 1,048,577
/// bytes are read.
#[derive(Drop)]
pub struct FileHost<R: Files<File = File> + AllocGlobal + Clone + Drop> {
    files: R,
    entered: Entered,
    handed: HandedOut<()>,
    failures: Failures<Cause>,
}

impl<R: Files<File = File> + AllocGlobal + Clone + Drop> FileHost<R> {
    /// A host that has handed out nothing, over the files of a runtime.
    pub fn new(rt: R) -> FileHost<R>
        ensures none_out { NoneOut (folder_disks_out result) (folder_shelves_out result) }
        ensures faults { folder_faults result ≡ 0 }
        ensures entered { folder_entered result ≡ None }
        ensures cause { folder_cause result ≡ None }
    {
        let alloc = rt.alloc();
        FileHost {
            files: rt,
            entered: Entered::nothing(alloc),
            handed: HandedOut::new(alloc),
            failures: Failures::none(),
        }
    }

    /// The first failure of a device that the host came to know, its own or a handle's that came back.
    pub fn cause(&self) -> Option<&Cause>
        ensures cause { option_copied result ≡ folder_cause self.now }
        ensures known { 1 ≤ folder_faults self.now → IsSome result }
    {
        self.failures.first.as_ref()
    }

    /// The fault of a call that went wrong. Where a device failed it is counted, and the first one's cause is kept.
    fn failed(&mut self, call: FileCall, place: Place, error: Error) -> HostFault
        ensures memory { error_kind error ≡ ErrorKind.OutOfMemory → result ≡ NoRoom }
        ensures device { error_kind error ≢ ErrorKind.OutOfMemory → result ≡ Device }
        ensures counted { result ≡ Device → Rose self.old.failures.count self.new.failures.count }
        ensures later { self.old.failures.count ≤ self.new.failures.count }
        ensures handed { self.new.handed ≡ self.old.handed }
        ensures entered { self.new.entered ≡ self.old.entered }
        ensures first { result ≡ Device
            → self.new.failures.first ≡ option_or self.old.failures.first
            (Some (record { call = call; place = place; error = error })) }
        ensures stays { result ≡ NoRoom → self.new.failures ≡ self.old.failures }
    {
        let fault = fault_of(&error);
        if fault == HostFault::Device {
            self.failures.add(Cause { call, place, error });
        }
        fault
    }
}

impl<R: Files<File = File> + AllocGlobal + Clone + Send + Drop> Host for FileHost<R> {
    type Disk = FileDisk<R>;

    type Shelf = FileShelf;

    ghost tells = { ⊥ };

    ghost entered = { folder_entered };

    ghost folder = { λ h. record { text = None; files = λ n. 0; disks = λ n f. [] } };

    ghost images = { λ h n c. ⊥ };

    ghost images_since = { λ h n k c. ⊥ };

    ghost call_number = { λ h n. 0 };

    ghost disks_out = { folder_disks_out };

    ghost shelves_out = { folder_shelves_out };

    ghost fault_count = { folder_faults };

    fn enter(&mut self, alloc: Global, path: &str) -> Result<(), HostFault> {
        match Entered::of(alloc, path) {
            Ok(entered) => {
                self.entered = entered;
                Ok(())
            }
            Err(_) => Err(HostFault::NoMemory),
        }
    }

    fn text(&mut self, alloc: Global) -> Result<Option<Vec<u8>>, HostFault> {
        match read_text(alloc, &self.files, self.entered.path()) {
            Ok(text) => Ok(text),
            Err(error) => Err(self.failed(FileCall::Text, Place::Text, error)),
        }
    }

    fn partitions(&mut self, alloc: Global, system: &Bin, stream: &Bin) -> Result<u32, HostFault> {
        let name = DiskName::Stream {
            system: system.copy(alloc)?,
            stream: stream.copy(alloc)?,
        };
        match count_partitions(alloc, &self.files, self.entered.path(), &name) {
            Ok(count) => Ok(count),
            Err(error) => Err(self.failed(FileCall::Partitions, Place::Folder(name), error)),
        }
    }

    fn shelf(&mut self, alloc: Global, name: &DiskName, file: u32) -> Result<FileShelf, HostFault> {
        let own = name.copy(alloc)?;
        let opened = match open_file(alloc, &self.files, self.entered.path(), &own, file) {
            Ok(opened) => opened,
            Err(error) => return Err(self.failed(FileCall::Shelf, Place::File(own, file), error)),
        };
        lend_shelf(&mut self.handed, alloc, name)?;
        Ok(FileShelf::new(opened, own, file))
    }

    fn lend(&mut self, alloc: Global, name: &DiskName) -> Result<FileDisk<R>, HostFault> {
        let own = name.copy(alloc)?;
        let Ok(files) = self.files.clone() else {
            return Err(HostFault::NoMemory);
        };
        let paths = match make_folder(alloc, &self.files, self.entered.path(), &own) {
            Ok(paths) => paths,
            Err(error) => return Err(self.failed(FileCall::Lend, Place::Folder(own), error)),
        };
        lend_disk(&mut self.handed, alloc, name)?;
        Ok(FileDisk::new(files, own, paths))
    }

    fn take_shelf(&mut self, shelf: FileShelf)
        requires out { 1 ≤ folder_shelves_out self.old (⟦<FileShelf as Shelf>⟧.name shelf) }
        ensures shelves_out { OneMore (⟦<FileShelf as Shelf>⟧.name shelf)
            (folder_shelves_out self.new) (folder_shelves_out self.old) }
        ensures disks_out { AsMany (folder_disks_out self.old) (folder_disks_out self.new) }
        ensures entered { folder_entered self.new ≡ folder_entered self.old }
        ensures counted { folder_faults self.new ≡ added (folder_faults self.old)
            (⟦<FileShelf as Shelf>⟧.fault_count shelf) }
        ensures cause { folder_cause self.new ≡ option_or (folder_cause self.old)
            (shelf_cause shelf) }
    {
        self.handed.take_shelf(shelf.disk_name());
        self.failures.join(shelf.into_failures());
    }

    fn take_disk(&mut self, name: &DiskName, disk: FileDisk<R>)
        requires out { 1 ≤ folder_disks_out self.old name.now }
        requires own { ⟦<FileDisk<R> as Disk>⟧.name disk ≡ name.now }
        ensures disks_out { OneMore name.now (folder_disks_out self.new)
            (folder_disks_out self.old) }
        ensures shelves_out { AsMany (folder_shelves_out self.old) (folder_shelves_out self.new) }
        ensures entered { folder_entered self.new ≡ folder_entered self.old }
        ensures counted { folder_faults self.new ≡ added (folder_faults self.old)
            (⟦<FileDisk<R> as Disk>⟧.fault_count disk) }
        ensures cause { folder_cause self.new ≡ option_or (folder_cause self.old)
            (disk_cause disk) }
    {
        self.handed.take_disk(name, ());
        self.failures.join(disk.into_failures());
    }

    fn faults(&self) -> u64 {
        self.failures.count
    }

    ghost disk_tells = { λ told. told };

    ghost shelf_tells = { λ told. told };

    ghost none_above = { λ host n f told le back. absurd told };

    ghost read_is_image = { λ host n told back. absurd told };

    ghost counts_now = { λ host n k c told back le now. absurd told };

    ghost only_now = { λ host n c told back since. absurd told };
}
