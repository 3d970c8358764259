// A folder in memory, with disks by name.
ghost use Rattle.std.specs.Prelude.{◌≡◌, Some};
ghost use Rattle.disk_model.specs.MemoryDisk.{mem_name};
ghost use Rattle.disk_model.specs.HandedOut.{held_under};
ghost use Rattle.disk_model.specs.declared.memory_disk.MemDisk.{MemDisk};
ghost use Rattle.disk_model.specs.declared.names.DiskName.{DiskName};

use crate::arms::{Failing, failing_of, forget_arm, put_arm};
use crate::host_steps::{
    as_handle, copy_text, count_of_files, crash_held, new_shelf, place_held, stream_name,
};
use crate::memory_disk::MemDisk;
use crate::memory_shelf::MemShelf;
use crate::new_disks::{files_of, new_disk};
use crate::slots::Slot;
use crate::tallies::Tally;
use crate::{Disk, DiskName, HandedOut, Host, HostFault, Pick, Shelf};
use samza_model::{Bin, NoMemory, Plain};
use std::alloc::Global;

/// A folder in memory, of any name.
#[derive(Drop)]
pub struct MemHost {
    alloc: Global,
    text: Option<Vec<u8>>,
    room: u64,
    calls: u64,
    handed: HandedOut<MemDisk>,
    arms: Vec<Slot<Failing>>,
    tally: Tally,
    /// The word of the last call of `enter` that went well.
    entered: Option<Bin>,
    ghost named: { (n : DiskName) (d : MemDisk) → held_under handed n ≡ Some d → mem_name d ≡ n },
}

impl MemHost {
    ghost use Rattle.std.specs.Prelude.{◌≡◌, ◌≢◌, ◌+◌, ◌-◌, ℕ, [], None, false, IsTrue, ◌↔◌, IfOk, IfSome, IsSome, OnOk, OnErr, max, length, MatchOption, option_map};
    ghost use Rattle.disk_model.specs.Capacities.{unused};
    ghost use Rattle.disk_model.specs.Handles.{AsMany, NoneOut};
    ghost use Rattle.disk_model.specs.Images.{Only, SameElsewhere};
    ghost use Rattle.disk_model.specs.MemoryHost.{disk_of, host_entered, host_text, host_reads, host_images, host_images_since, host_calls, host_file_count, host_disks_out, host_shelves_out, host_faults, host_fails, host_own_calls, host_armed, host_bounds, host_capacity, new_capacity, CanPut, SameCapacity, SameHostTold, IsSameHeld};
    ghost use Rattle.disk_model.specs.Tallies.{fails_at};
    ghost use Rattle.disk_model.specs.MemoryDisk.{mem_states};
    ghost use Rattle.disk_model.specs.Picks.{IsPicked};
    ghost use Rattle.disk_model.specs.Slots.{text_in};
    ghost use Rattle.disk_model.specs.declared.names.DiskName.{DiskName};

    /// A folder with this configuration and no files. `room` is the greatest size of one file and of the bytes that are
    /// written to one disk, and `calls` the greatest number of calls of one disk.
    pub fn new(
        alloc: Global,
        text: Option<Vec<u8>>,
        room: u64,
        calls: u64,
    ) -> Result<MemHost, NoMemory>
        ensures text { IfOk result (λ h. host_text h ≡ text_in (λ v. v.items) text) }
        ensures none_out { IfOk result (λ h. NoneOut (host_disks_out h) (host_shelves_out h)) }
        ensures reads { IfOk result (λ h. (n : DiskName) (f : ℕ) → host_reads h n f ≡ []) }
        ensures file_count { IfOk result (λ h. (n : DiskName) → host_file_count h n ≡ 0) }
        ensures faults { IfOk result (λ h. host_faults h ≡ 0) }
        ensures bounds { IfOk result (λ h. host_bounds h ≡ (room, calls)) }
        ensures capacity { IfOk result (λ h. (n : DiskName)
            → host_capacity h n ≡ new_capacity (room, calls) n) }
        ensures calls { IfOk result (λ h. host_own_calls h ≡ 0) }
        ensures none_fails { IfOk result (λ h. (number : ℕ) → host_fails h number ≡ false) }
        ensures none_armed { IfOk result (λ h. (n : DiskName) (number : ℕ)
            → host_armed h n number ≡ false) }
        ensures entered { IfOk result (λ h. host_entered h ≡ None) }
    {
        Ok(MemHost {
            alloc,
            text,
            room,
            calls,
            handed: HandedOut::new(alloc),
            arms: Vec::new(alloc),
            tally: Tally {
                calls: 0,
                faults: 0,
                from: 0,
                fail_at: Vec::new(alloc),
                stop_after: None,
            },
            entered: None,
        })
    }

    /// A file's bytes. One that isn't there has none.
    pub fn file(&self, name: &DiskName, file: u32) -> &[u8]
        ensures { result.now ≡ host_reads self.now name.now file }
    {
        match self.handed.held(name) {
            Some(disk) => disk.bytes(file),
            None => &[],
        }
    }

    /// Makes a disk of this name, if there is none.
    fn ensure(&mut self, alloc: Global, name: &DiskName) -> Result<(), NoMemory>
        ensures there { OnOk result (host_disks_out self.old name.now ≡ 0
            → IsSome (disk_of self.new name.now)) }
        ensures disks { (n : DiskName) → IsSameHeld self.old self.new n }
        ensures disks_out { AsMany (host_disks_out self.old) (host_disks_out self.new) }
        ensures shelves_out { AsMany (host_shelves_out self.old) (host_shelves_out self.new) }
        ensures text { host_text self.new ≡ host_text self.old }
        ensures entered { host_entered self.new ≡ host_entered self.old }
        ensures faults { host_faults self.new ≡ host_faults self.old }
        ensures calls { host_own_calls self.new ≡ host_own_calls self.old }
        ensures told { SameHostTold self.old self.new }
        ensures capacity { (n : DiskName) → SameCapacity self.old self.new n }
    {
        if self.handed.is_known(name) {
            return Ok(());
        }
        let disk = new_disk(alloc, name, self.room, self.calls)?;
        self.handed.add(alloc, name, disk)
    }

    /// Whether so many bytes can stand in this file: a task's disk has 64 files and a stream's 256, which are numbered from
    /// 0, and each has the host's room.
    pub fn fits(&self, name: &DiskName, file: u32, len: usize) -> bool
        ensures { IsTrue result ↔ CanPut self.now name.now file len }
    {
        match self.handed.held(name) {
            Some(disk) => disk.can_place(file, len),
            None => file < files_of(name) && len as u64 <= self.room,
        }
    }

    /// Puts bytes in the place of a file, whose one image they are.
    pub fn put_file(&mut self, name: &DiskName, file: u32, bytes: &[u8]) -> Result<(), NoMemory>
        requires disk_in { host_disks_out self.old name.now ≡ 0 }
        requires shelves_in { host_shelves_out self.old name.now ≡ 0 }
        requires fits { CanPut self.old name.now file (length bytes.now) }
        ensures placed { OnOk result (host_reads self.new name.now file ≡ bytes.now) }
        ensures one_image { OnOk result
            (Only file (host_reads self.new name.now) (host_images self.new name.now)) }
        ensures elsewhere { SameElsewhere file (host_reads self.old name.now)
            (host_reads self.new name.now) }
        ensures file_count { OnOk result (host_file_count self.new name.now
            ≡ max (host_file_count self.old name.now) (file + 1)) }
        ensures refused { OnErr result (IsSameHeld self.old self.new name.now) }
        ensures disks { (n : DiskName) → n ≢ name.now → IsSameHeld self.old self.new n }
        ensures disks_out { AsMany (host_disks_out self.old) (host_disks_out self.new) }
        ensures shelves_out { AsMany (host_shelves_out self.old) (host_shelves_out self.new) }
        ensures text { host_text self.new ≡ host_text self.old }
        ensures entered { host_entered self.new ≡ host_entered self.old }
        ensures faults { host_faults self.new ≡ host_faults self.old }
        ensures calls { host_own_calls self.new ≡ host_own_calls self.old }
        ensures told { SameHostTold self.old self.new }
        ensures capacity { (n : DiskName) → SameCapacity self.old self.new n }
    {
        self.ensure(self.alloc, name)?;
        place_held(&mut self.handed, name, file, bytes);
        Ok(())
    }

    /// Says anew which calls of the host itself fail, counted from 0 from now on.
    pub fn fail_next(&mut self, calls: Vec<u64>)
        ensures disks { (n : DiskName) → IsSameHeld self.old self.new n }
        ensures disks_out { AsMany (host_disks_out self.old) (host_disks_out self.new) }
        ensures shelves_out { AsMany (host_shelves_out self.old) (host_shelves_out self.new) }
        ensures text { host_text self.new ≡ host_text self.old }
        ensures entered { host_entered self.new ≡ host_entered self.old }
        ensures faults { host_faults self.new ≡ host_faults self.old }
        ensures bounds { host_bounds self.new ≡ host_bounds self.old }
        ensures capacity { (n : DiskName) → SameCapacity self.old self.new n }
        ensures calls { host_own_calls self.new ≡ host_own_calls self.old }
        ensures fails { (number : ℕ)
            → host_fails self.new number
            ≡ (fails_at calls.items None (number - host_own_calls self.old)) }
        ensures arms { (n : DiskName) (number : ℕ)
            → host_armed self.new n number ≡ host_armed self.old n number }
    {
        self.tally.from = self.tally.calls;
        self.tally.fail_at = calls;
        self.tally.stop_after = None;
    }

    /// Says which calls fail on each disk and shelf that is given out for this name from now on.
    pub fn arm(
        &mut self,
        name: &DiskName,
        fail_at: Vec<u64>,
        stop_after: Option<u64>,
    ) -> Result<(), NoMemory>
        ensures disks { (n : DiskName) → IsSameHeld self.old self.new n }
        ensures disks_out { AsMany (host_disks_out self.old) (host_disks_out self.new) }
        ensures shelves_out { AsMany (host_shelves_out self.old) (host_shelves_out self.new) }
        ensures text { host_text self.new ≡ host_text self.old }
        ensures entered { host_entered self.new ≡ host_entered self.old }
        ensures faults { host_faults self.new ≡ host_faults self.old }
        ensures bounds { host_bounds self.new ≡ host_bounds self.old }
        ensures calls { host_own_calls self.new ≡ host_own_calls self.old }
        ensures fails { (number : ℕ) → host_fails self.new number ≡ host_fails self.old number }
        ensures capacity { (n : DiskName) → SameCapacity self.old self.new n }
        ensures armed { OnOk result ((number : ℕ)
            → host_armed self.new name.now number ≡ fails_at fail_at.items stop_after number) }
        ensures unarmed { OnErr result ((number : ℕ)
            → host_armed self.new name.now number ≡ host_armed self.old name.now number) }
        ensures arms { (n : DiskName) (number : ℕ) → n ≢ name.now
            → host_armed self.new n number ≡ host_armed self.old n number }
    {
        put_arm(
            self.alloc,
            &mut self.arms,
            name,
            Failing {
                fail_at,
                stop_after,
            },
        )
    }

    /// Puts what a crash now leaves of the disk of a name in its place, and forgets which of its calls were to fail. Where
    /// there is no such disk, no disk changes. It takes no memory.
    pub fn crash(&mut self, name: &DiskName, pick: Pick)
        requires { host_disks_out self.old name.now ≡ 0 }
        ensures image { host_images self.old name.now (host_reads self.new name.now) }
        ensures one_image { (f : ℕ)
            → Only f (host_reads self.new name.now) (host_images self.new name.now) }
        ensures picked { IfSome (disk_of self.old name.now) (λ d. (f : ℕ)
            → IsPicked pick (mem_states d f) (host_reads self.new name.now f)) }
        ensures newest { pick ≡ Pick.New → (f : ℕ)
            → host_reads self.new name.now f ≡ host_reads self.old name.now f }
        ensures absent { disk_of self.old name.now ≡ None → IsSameHeld self.old self.new name.now }
        ensures calls { host_calls self.new name.now ≡ 0 }
        ensures file_count { host_file_count self.new name.now ≡ host_file_count self.old name.now }
        ensures disks { (n : DiskName) → n ≢ name.now → IsSameHeld self.old self.new n }
        ensures disks_out { AsMany (host_disks_out self.old) (host_disks_out self.new) }
        ensures shelves_out { AsMany (host_shelves_out self.old) (host_shelves_out self.new) }
        ensures text { host_text self.new ≡ host_text self.old }
        ensures entered { host_entered self.new ≡ host_entered self.old }
        ensures faults { host_faults self.new ≡ host_faults self.old }
        ensures bounds { host_bounds self.new ≡ host_bounds self.old }
        ensures own_calls { host_own_calls self.new ≡ host_own_calls self.old }
        ensures fails { (number : ℕ) → host_fails self.new number ≡ host_fails self.old number }
        ensures emptied { host_capacity self.new name.now
            ≡ unused (host_capacity self.old name.now) }
        ensures capacity { (n : DiskName) → n ≢ name.now → SameCapacity self.old self.new n }
        ensures none_fails { (number : ℕ) → host_armed self.new name.now number ≡ false }
        ensures arms { (n : DiskName) (number : ℕ) → n ≢ name.now
            → host_armed self.new n number ≡ host_armed self.old n number }
    {
        forget_arm(&mut self.arms, name);
        crash_held(&mut self.handed, name, pick);
    }
}

impl Host for MemHost {
    ghost use Rattle.std.specs.Prelude.{◌≡◌, ◌≢◌, ◌↔◌, ◌≤◌, ◌-◌, ◌^◌, ℕ, true, None, Some, Err, IfOk, OnOk, OnErr, MatchOption, min};
    ghost use Rattle.samza_model.specs.Counters.{added, next_number, Rose};
    ghost use Rattle.disk_model.specs.Handles.{AsMany, OneMore, SameDisk};
    ghost use Rattle.disk_model.specs.MemoryDisk.{mem_calls, mem_capacity, mem_fails, mem_file_count, mem_faults, mem_images, mem_images_since, mem_name, mem_reads};
    ghost use Rattle.disk_model.specs.MemoryShelf.{shelf_bytes, shelf_calls, shelf_fails, shelf_faults, shelf_file, shelf_name};
    ghost use Rattle.disk_model.specs.declared.names.DiskName.{DiskName};
    ghost use Rattle.disk_model.specs.declared.names.DiskName.TheVariants.{Stream};
    ghost use Rattle.disk_model.specs.MemoryHost.{host_entered, host_folder, host_text, host_reads, host_images, host_images_since, host_calls, host_file_count, host_disks_out, host_shelves_out, host_faults, host_fails, host_own_calls, host_armed, host_capacity, SameCapacity, SameHostTold, IsSameHeld};
    ghost use Rattle.disk_model.specs.HostLaws.{host_none_above, host_read_is_image, host_counts_now, host_only_now};

    type Disk = MemDisk;

    type Shelf = MemShelf;

    ghost tells = { Unit {0} };

    ghost entered = { host_entered };

    ghost folder = { host_folder };

    ghost images = { host_images };

    ghost images_since = { host_images_since };

    ghost call_number = { host_calls };

    ghost disks_out = { host_disks_out };

    ghost shelves_out = { host_shelves_out };

    ghost fault_count = { host_faults };

    fn enter(&mut self, alloc: Global, path: &str) -> Result<(), HostFault>
        ensures entered { OnOk result (host_entered self.new ≡ Some path.now) }
        ensures not_entered { OnErr result (host_entered self.new ≡ host_entered self.old) }
        ensures text_stays { host_text self.new ≡ host_text self.old }
        ensures disks { (n : DiskName) → IsSameHeld self.old self.new n }
        ensures disks_out { AsMany (host_disks_out self.old) (host_disks_out self.new) }
        ensures shelves_out { AsMany (host_shelves_out self.old) (host_shelves_out self.new) }
        ensures later { host_faults self.old ≤ host_faults self.new }
        ensures device { result ≡ Err HostFault.Device
            → Rose (host_faults self.old) (host_faults self.new) }
        ensures told { (result ≡ Err HostFault.Device)
            ↔ (host_fails self.old (host_own_calls self.old) ≡ true) }
        ensures called { host_own_calls self.new ≡ next_number (host_own_calls self.old) }
        ensures orders { SameHostTold self.old self.new }
        ensures capacity { (n : DiskName) → SameCapacity self.old self.new n }
    {
        if self.tally.fails() {
            return Err(HostFault::Device);
        }
        self.entered = Some(Bin::of(alloc, path.as_bytes())?);
        Ok(())
    }

    fn text(&mut self, alloc: Global) -> Result<Option<Vec<u8>>, HostFault>
        ensures text { IfOk result
            (λ t. MatchOption t (host_text self.old ≡ None)
            (λ v. host_text self.old ≡ Some v.items)) }
        ensures entered { host_entered self.new ≡ host_entered self.old }
        ensures text_stays { host_text self.new ≡ host_text self.old }
        ensures disks { (n : DiskName) → IsSameHeld self.old self.new n }
        ensures disks_out { AsMany (host_disks_out self.old) (host_disks_out self.new) }
        ensures shelves_out { AsMany (host_shelves_out self.old) (host_shelves_out self.new) }
        ensures later { host_faults self.old ≤ host_faults self.new }
        ensures device { result ≡ Err HostFault.Device
            → Rose (host_faults self.old) (host_faults self.new) }
        ensures told { (result ≡ Err HostFault.Device)
            ↔ (host_fails self.old (host_own_calls self.old) ≡ true) }
        ensures called { host_own_calls self.new ≡ next_number (host_own_calls self.old) }
        ensures orders { SameHostTold self.old self.new }
        ensures capacity { (n : DiskName) → SameCapacity self.old self.new n }
    {
        if self.tally.fails() {
            return Err(HostFault::Device);
        }
        Ok(copy_text(alloc, &self.text)?)
    }

    fn partitions(&mut self, alloc: Global, system: &Bin, stream: &Bin) -> Result<u32, HostFault>
        ensures count { IfOk result
            (λ n. n ≡ min (host_file_count self.old (Stream system.now stream.now)) (2 ^ 32 - 1)) }
        ensures entered { host_entered self.new ≡ host_entered self.old }
        ensures text_stays { host_text self.new ≡ host_text self.old }
        ensures disks { (n : DiskName) → IsSameHeld self.old self.new n }
        ensures disks_out { AsMany (host_disks_out self.old) (host_disks_out self.new) }
        ensures shelves_out { AsMany (host_shelves_out self.old) (host_shelves_out self.new) }
        ensures later { host_faults self.old ≤ host_faults self.new }
        ensures device { result ≡ Err HostFault.Device
            → Rose (host_faults self.old) (host_faults self.new) }
        ensures told { (result ≡ Err HostFault.Device)
            ↔ (host_fails self.old (host_own_calls self.old) ≡ true) }
        ensures called { host_own_calls self.new ≡ next_number (host_own_calls self.old) }
        ensures orders { SameHostTold self.old self.new }
        ensures capacity { (n : DiskName) → SameCapacity self.old self.new n }
    {
        if self.tally.fails() {
            return Err(HostFault::Device);
        }
        let name = stream_name(alloc, system, stream)?;
        Ok(count_of_files(&self.handed, &name))
    }

    fn shelf(&mut self, alloc: Global, name: &DiskName, file: u32) -> Result<MemShelf, HostFault>
        requires disk_in { host_disks_out self.old name.now ≡ 0 }
        ensures bytes { IfOk result (λ s. shelf_bytes s ≡ host_reads self.old name.now file) }
        ensures name { IfOk result (λ s. shelf_name s ≡ name.now) }
        ensures file { IfOk result (λ s. shelf_file s ≡ file) }
        ensures fresh { IfOk result (λ s. shelf_faults s ≡ 0) }
        ensures counted_anew { IfOk result (λ s. shelf_calls s ≡ 0) }
        ensures armed { IfOk result (λ s. (number : ℕ)
            → shelf_fails s number ≡ host_armed self.old name.now number) }
        ensures shelves_out { OnOk result
            (OneMore name.now (host_shelves_out self.old) (host_shelves_out self.new)) }
        ensures refused { OnErr result
            (AsMany (host_shelves_out self.old) (host_shelves_out self.new)) }
        ensures entered { host_entered self.new ≡ host_entered self.old }
        ensures text_stays { host_text self.new ≡ host_text self.old }
        ensures disks { (n : DiskName) → IsSameHeld self.old self.new n }
        ensures disks_out { AsMany (host_disks_out self.old) (host_disks_out self.new) }
        ensures later { host_faults self.old ≤ host_faults self.new }
        ensures device { result ≡ Err HostFault.Device
            → Rose (host_faults self.old) (host_faults self.new) }
        ensures told { (result ≡ Err HostFault.Device)
            ↔ (host_fails self.old (host_own_calls self.old) ≡ true) }
        ensures called { host_own_calls self.new ≡ next_number (host_own_calls self.old) }
        ensures orders { SameHostTold self.old self.new }
        ensures capacity { (n : DiskName) → SameCapacity self.old self.new n }
    {
        if self.tally.fails() {
            return Err(HostFault::Device);
        }
        self.ensure(alloc, name)?;
        let failing = failing_of(alloc, self.arms.as_slice(), name)?;
        let shelf = new_shelf(alloc, name, file, self.file(name, file), failing)?;
        if !self.handed.lend_shelf(name) {
            return Err(HostFault::NoMemory);
        }
        Ok(shelf)
    }

    fn lend(&mut self, alloc: Global, name: &DiskName) -> Result<MemDisk, HostFault>
        requires disk_in { host_disks_out self.old name.now ≡ 0 }
        requires shelves_in { host_shelves_out self.old name.now ≡ 0 }
        ensures disk { IfOk result
            (λ d. SameDisk (host_reads self.old name.now) (host_images self.old name.now)
            (host_images_since self.old name.now) (host_calls self.old name.now) (mem_reads d)
            (mem_images d) (mem_images_since d) (mem_calls d)) }
        ensures there { IfOk result (λ d. mem_file_count d ≡ host_file_count self.old name.now) }
        ensures name { IfOk result (λ d. mem_name d ≡ name.now) }
        ensures fresh { IfOk result (λ d. mem_faults d ≡ 0) }
        ensures armed { IfOk result (λ d. (number : ℕ)
            → mem_fails d number ≡ host_armed self.old name.now (number - mem_calls d)) }
        ensures disks_out { OnOk result
            (OneMore name.now (host_disks_out self.old) (host_disks_out self.new)) }
        ensures refused { OnErr result
            (AsMany (host_disks_out self.old) (host_disks_out self.new)) }
        ensures kept { OnErr result (IsSameHeld self.old self.new name.now) }
        ensures entered { host_entered self.new ≡ host_entered self.old }
        ensures text_stays { host_text self.new ≡ host_text self.old }
        ensures disks { (n : DiskName) → n ≢ name.now → IsSameHeld self.old self.new n }
        ensures shelves_out { AsMany (host_shelves_out self.old) (host_shelves_out self.new) }
        ensures later { host_faults self.old ≤ host_faults self.new }
        ensures device { result ≡ Err HostFault.Device
            → Rose (host_faults self.old) (host_faults self.new) }
        ensures told { (result ≡ Err HostFault.Device)
            ↔ (host_fails self.old (host_own_calls self.old) ≡ true) }
        ensures called { host_own_calls self.new ≡ next_number (host_own_calls self.old) }
        ensures orders { SameHostTold self.old self.new }
        ensures lent { IfOk result (λ d. mem_capacity d ≡ host_capacity self.old name.now) }
        ensures capacity { (n : DiskName) → n ≢ name.now → SameCapacity self.old self.new n }
        ensures refused_capacity { OnErr result (SameCapacity self.old self.new name.now) }
    {
        if self.tally.fails() {
            return Err(HostFault::Device);
        }
        self.ensure(alloc, name)?;
        let failing = failing_of(alloc, self.arms.as_slice(), name)?;
        match self.handed.lend_disk(name) {
            Some(disk) => Ok(as_handle(disk, failing)),
            None => Err(HostFault::NoMemory),
        }
    }

    fn take_shelf(&mut self, shelf: MemShelf)
        requires out { 1 ≤ host_shelves_out self.old (shelf_name shelf) }
        ensures shelves_out { OneMore (shelf_name shelf) (host_shelves_out self.new)
            (host_shelves_out self.old) }
        ensures entered { host_entered self.new ≡ host_entered self.old }
        ensures text_stays { host_text self.new ≡ host_text self.old }
        ensures disks { (n : DiskName) → IsSameHeld self.old self.new n }
        ensures disks_out { AsMany (host_disks_out self.old) (host_disks_out self.new) }
        ensures counted { host_faults self.new ≡ added (host_faults self.old) (shelf_faults shelf) }
        ensures calls { host_own_calls self.new ≡ host_own_calls self.old }
        ensures orders { SameHostTold self.old self.new }
        ensures capacity { (n : DiskName) → SameCapacity self.old self.new n }
    {
        let faults = shelf.faults();
        self.handed.take_shelf(&shelf.name);
        self.tally.add_faults(faults);
    }

    fn take_disk(&mut self, name: &DiskName, disk: MemDisk)
        requires out { 1 ≤ host_disks_out self.old name.now }
        requires own { mem_name disk ≡ name.now }
        ensures disk { SameDisk (mem_reads disk) (mem_images disk) (mem_images_since disk)
            (mem_calls disk) (host_reads self.new name.now) (host_images self.new name.now)
            (host_images_since self.new name.now) (host_calls self.new name.now) }
        ensures there { host_file_count self.new name.now ≡ mem_file_count disk }
        ensures disks_out { OneMore name.now (host_disks_out self.new) (host_disks_out self.old) }
        ensures entered { host_entered self.new ≡ host_entered self.old }
        ensures text_stays { host_text self.new ≡ host_text self.old }
        ensures disks { (n : DiskName) → n ≢ name.now → IsSameHeld self.old self.new n }
        ensures shelves_out { AsMany (host_shelves_out self.old) (host_shelves_out self.new) }
        ensures counted { host_faults self.new ≡ added (host_faults self.old) (mem_faults disk) }
        ensures calls { host_own_calls self.new ≡ host_own_calls self.old }
        ensures orders { SameHostTold self.old self.new }
        ensures returned { host_capacity self.new name.now ≡ mem_capacity disk }
        ensures capacity { (n : DiskName) → n ≢ name.now → SameCapacity self.old self.new n }
    {
        let faults = disk.faults();
        self.handed.take_disk(name, disk);
        self.tally.add_faults(faults);
    }

    fn faults(&self) -> u64 {
        self.tally.faults
    }

    ghost disk_tells = { λ told. told };

    ghost shelf_tells = { λ told. told };

    ghost none_above = { host_none_above };

    ghost read_is_image = { host_read_is_image };

    ghost counts_now = { host_counts_now };

    ghost only_now = { host_only_now };
}
