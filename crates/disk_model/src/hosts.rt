// The folder that hands out disks and shelves, and takes them back.
ghost use Rattle.std.specs.Prelude.{◌≡◌, ◌≢◌, ◌-◌, ◌^◌, ◌≤◌, ℕ, List, [], Option, Some, None, min, IfOk, OnOk, OnErr, MatchOption};
ghost use Rattle.samza_model.specs.Counters.{Rose, added};
ghost use Rattle.samza_model.specs.Files.{Image};
ghost use Rattle.disk_model.specs.Folders.{Folder};
ghost use Rattle.disk_model.specs.declared.names.DiskName.{DiskName};
ghost use Rattle.disk_model.specs.declared.names.DiskName.TheVariants.{Stream};
ghost use Rattle.disk_model.specs.Handles.{OneMore, AsMany, SameDisk, SameAt};

use crate::{Disk, DiskName, Shelf};
use samza_model::{Bin, NoMemory};
use std::alloc::Global;
use std::error::Error;
use std::fmt;

/// Why a host refused.
#[derive(Clone, Copy, Debug, PartialEq, Eq)]
pub enum HostFault {
    /// A device failed, and the host's count of faults rose.
    Device,
    NoMemory,
}

impl fmt::Display for HostFault {
    fn fmt<W: fmt::Write>(&self, f: &mut fmt::Formatter<W>) -> fmt::Result {
        match self {
            HostFault::Device => write!(f, "device failed"),
            HostFault::NoMemory => write!(f, "no memory"),
        }
    }
}

impl Error for HostFault {}

impl From<NoMemory> for HostFault {
    ghost use Rattle.std.specs.Prelude.{◌≡◌};
    ghost use Rattle.disk_model.specs.declared.hosts.HostFault.TheVariants.{NoMemory as NoRoom};

    ghost from_gives = { λ _ e. e ≡ NoRoom };

    fn from(_: NoMemory) -> Self {
        HostFault::NoMemory
    }
}

/// One folder, after `enter`: its configuration's text, the files of its streams, and its tasks' disks.
pub trait Host {
    type Disk: Disk;

    type Shelf: Shelf;

    /// Holds where the host tells its bytes.
    ghost tells: { Type 0 };

    /// The folder that was entered, by the word that `enter` was given. Every host says it.
    ghost entered: { Self → Option (List ℕ) };

    /// What the folder holds.
    ghost folder: { Self → Folder };

    ghost images: { Self → DiskName → Image → Type 0 };

    ghost images_since: { Self → DiskName → ℕ → Image → Type 0 };

    ghost call_number: { Self → DiskName → ℕ };

    /// How many disks of a name are out.
    ghost disks_out: { Self → DiskName → ℕ };

    /// How many shelves of the disk of a name are out.
    ghost shelves_out: { Self → DiskName → ℕ };

    ghost fault_count: { Self → ℕ };

    /// Goes to a folder.
    fn enter(&mut self, alloc: Global, path: &str) -> Result<(), HostFault>
        ensures entered { OnOk result (entered self.new ≡ Some path.now) }
        ensures not_entered { OnErr result (entered self.new ≡ entered self.old) }
        ensures text_stays { tells → (folder self.new).text ≡ (folder self.old).text }
        ensures disks { tells → (n : DiskName)
            → SameAt folder images images_since call_number self.old self.new n }
        ensures disks_out { AsMany (disks_out self.old) (disks_out self.new) }
        ensures shelves_out { AsMany (shelves_out self.old) (shelves_out self.new) }
        ensures later { fault_count self.old ≤ fault_count self.new }
        ensures device { result ≡ Err HostFault.Device
            → Rose (fault_count self.old) (fault_count self.new) };

    /// The configuration's bytes, or `None` where there is no configuration.
    fn text(&mut self, alloc: Global) -> Result<Option<Vec<u8>>, HostFault>
        ensures text { IfOk result (λ t. tells
            → MatchOption t ((folder self.old).text ≡ None)
            (λ v. (folder self.old).text ≡ Some v.items)) }
        ensures entered { entered self.new ≡ entered self.old }
        ensures text_stays { tells → (folder self.new).text ≡ (folder self.old).text }
        ensures disks { tells → (n : DiskName)
            → SameAt folder images images_since call_number self.old self.new n }
        ensures disks_out { AsMany (disks_out self.old) (disks_out self.new) }
        ensures shelves_out { AsMany (shelves_out self.old) (shelves_out self.new) }
        ensures later { fault_count self.old ≤ fault_count self.new }
        ensures device { result ≡ Err HostFault.Device
            → Rose (fault_count self.old) (fault_count self.new) };

    /// One more than the stream's greatest file number (at most 2^32 - 1), and 0 where it has no file.
    fn partitions(&mut self, alloc: Global, system: &Bin, stream: &Bin) -> Result<u32, HostFault>
        ensures count { IfOk result (λ n. tells
            → n ≡ min ((folder self.old).files (Stream system.now stream.now)) (2 ^ 32 - 1)) }
        ensures entered { entered self.new ≡ entered self.old }
        ensures text_stays { tells → (folder self.new).text ≡ (folder self.old).text }
        ensures disks { tells → (n : DiskName)
            → SameAt folder images images_since call_number self.old self.new n }
        ensures disks_out { AsMany (disks_out self.old) (disks_out self.new) }
        ensures shelves_out { AsMany (shelves_out self.old) (shelves_out self.new) }
        ensures later { fault_count self.old ≤ fault_count self.new }
        ensures device { result ≡ Err HostFault.Device
            → Rose (fault_count self.old) (fault_count self.new) };

    /// Opens one file of a disk for reading. One that isn't there has no bytes.
    fn shelf(&mut self, alloc: Global, name: &DiskName, file: u32) -> Result<Self::Shelf, HostFault>
        requires disk_in { disks_out self.old name.now ≡ 0 }
        ensures bytes { IfOk result (λ s. tells
            → Self.Shelf.bytes s ≡ (folder self.old).disks name.now file) }
        ensures name { IfOk result (λ s. Self.Shelf.name s ≡ name.now) }
        ensures file { IfOk result (λ s. Self.Shelf.file s ≡ file) }
        ensures fresh { IfOk result (λ s. Self.Shelf.fault_count s ≡ 0) }
        ensures shelves_out { OnOk result
            (OneMore name.now (shelves_out self.old) (shelves_out self.new)) }
        ensures refused { OnErr result (AsMany (shelves_out self.old) (shelves_out self.new)) }
        ensures entered { entered self.new ≡ entered self.old }
        ensures text_stays { tells → (folder self.new).text ≡ (folder self.old).text }
        ensures disks { tells → (n : DiskName)
            → SameAt folder images images_since call_number self.old self.new n }
        ensures disks_out { AsMany (disks_out self.old) (disks_out self.new) }
        ensures later { fault_count self.old ≤ fault_count self.new }
        ensures device { result ≡ Err HostFault.Device
            → Rose (fault_count self.old) (fault_count self.new) };

    /// Hands out a disk.
    fn lend(&mut self, alloc: Global, name: &DiskName) -> Result<Self::Disk, HostFault>
        requires disk_in { disks_out self.old name.now ≡ 0 }
        requires shelves_in { shelves_out self.old name.now ≡ 0 }
        ensures disk { IfOk result (λ d. tells
            → SameDisk ((folder self.old).disks name.now) (images self.old name.now)
            (images_since self.old name.now) (call_number self.old name.now) (Self.Disk.reads d)
            (Self.Disk.images d) (Self.Disk.images_since d) (Self.Disk.call_number d)) }
        ensures there { IfOk result (λ d. tells
            → Self.Disk.file_count d ≡ (folder self.old).files name.now) }
        ensures name { IfOk result (λ d. Self.Disk.name d ≡ name.now) }
        ensures fresh { IfOk result (λ d. Self.Disk.fault_count d ≡ 0) }
        ensures disks_out { OnOk result
            (OneMore name.now (disks_out self.old) (disks_out self.new)) }
        ensures refused { OnErr result (AsMany (disks_out self.old) (disks_out self.new)) }
        ensures kept { OnErr result (tells
            → SameAt folder images images_since call_number self.old self.new name.now) }
        ensures entered { entered self.new ≡ entered self.old }
        ensures text_stays { tells → (folder self.new).text ≡ (folder self.old).text }
        ensures disks { tells → (n : DiskName) → n ≢ name.now
            → SameAt folder images images_since call_number self.old self.new n }
        ensures shelves_out { AsMany (shelves_out self.old) (shelves_out self.new) }
        ensures later { fault_count self.old ≤ fault_count self.new }
        ensures device { result ≡ Err HostFault.Device
            → Rose (fault_count self.old) (fault_count self.new) };

    /// Takes a shelf back, and adds its count of faults to the host's.
    fn take_shelf(&mut self, shelf: Self::Shelf)
        requires out { 1 ≤ shelves_out self.old (Self.Shelf.name shelf) }
        ensures shelves_out { OneMore (Self.Shelf.name shelf) (shelves_out self.new)
            (shelves_out self.old) }
        ensures entered { entered self.new ≡ entered self.old }
        ensures text_stays { tells → (folder self.new).text ≡ (folder self.old).text }
        ensures disks { tells → (n : DiskName)
            → SameAt folder images images_since call_number self.old self.new n }
        ensures disks_out { AsMany (disks_out self.old) (disks_out self.new) }
        ensures counted { fault_count self.new ≡ added (fault_count self.old)
            (Self.Shelf.fault_count shelf) };

    /// Takes a disk back, which is the host's disk of that name again, and adds its count of faults to the host's.
    fn take_disk(&mut self, name: &DiskName, disk: Self::Disk)
        requires out { 1 ≤ disks_out self.old name.now }
        requires own { Self.Disk.name disk ≡ name.now }
        ensures disk { tells → SameDisk (Self.Disk.reads disk) (Self.Disk.images disk)
            (Self.Disk.images_since disk) (Self.Disk.call_number disk)
            ((folder self.new).disks name.now) (images self.new name.now)
            (images_since self.new name.now) (call_number self.new name.now) }
        ensures there { tells → (folder self.new).files name.now ≡ Self.Disk.file_count disk }
        ensures disks_out { OneMore name.now (disks_out self.new) (disks_out self.old) }
        ensures entered { entered self.new ≡ entered self.old }
        ensures text_stays { tells → (folder self.new).text ≡ (folder self.old).text }
        ensures disks { tells → (n : DiskName) → n ≢ name.now
            → SameAt folder images images_since call_number self.old self.new n }
        ensures shelves_out { AsMany (shelves_out self.old) (shelves_out self.new) }
        ensures counted { fault_count self.new ≡ added (fault_count self.old)
            (Self.Disk.fault_count disk) };

    /// The number of faults so far, its own and those of the handles that came back.
    fn faults(&self) -> u64
        ensures { result ≡ fault_count self.now };

    ghost disk_tells: { tells → Self.Disk.tells };

    ghost shelf_tells: { tells → Self.Shelf.tells };

    /// A file at or above the count isn't there, so it has no bytes.
    ghost none_above: { (host : Self) (n : DiskName) (f : ℕ) → tells → (folder host).files n ≤ f → disks_out host n ≡ 0 → (folder host).disks n f ≡ [] };

    /// What a read gives of a disk that isn't out is one of its images.
    ghost read_is_image: { (host : Self) (n : DiskName) → tells → disks_out host n ≡ 0 → images host n ((folder host).disks n) };

    /// An image now is an image since each number up to now.
    ghost counts_now: { (host : Self) (n : DiskName) (k : ℕ) (c : Image) → tells → disks_out host n ≡ 0 → k ≤ call_number host n → images host n c → images_since host n k c };

    /// Since the number now there is no other.
    ghost only_now: { (host : Self) (n : DiskName) (c : Image) → tells → disks_out host n ≡ 0 → images_since host n (call_number host n) c → images host n c };
}
