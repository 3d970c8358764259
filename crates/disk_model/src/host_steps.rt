// Small steps of a host in memory.
ghost use Rattle.std.specs.Prelude.{◌≡◌, ◌≢◌, ◌-◌, ◌^◌, ◌+◌, ℕ, Option, Some, None, length, IfOk, MatchOption, min, max};
ghost use Rattle.disk_model.specs.Images.{Only, SameElsewhere};
ghost use Rattle.disk_model.specs.MemoryDisk.{mem_name, mem_reads, mem_images, mem_file_count, mem_calls, mem_capacity, mem_fails, mem_faults, CanPlace, IsSameDisk};
ghost use Rattle.disk_model.specs.MemoryShelf.{shelf_name, shelf_file, shelf_bytes, shelf_calls, shelf_fails, shelf_faults};
ghost use Rattle.disk_model.specs.Handles.{AsMany};
ghost use Rattle.disk_model.specs.HandedOut.{disks_of, held_under, shelves_of};
ghost use Rattle.disk_model.specs.Slots.{number_in, text_in};
ghost use Rattle.disk_model.specs.Tallies.{fails_at};
ghost use Rattle.disk_model.specs.HostSteps.{IsPlaced, IsCrashed, OnHeld};
ghost use Rattle.disk_model.specs.declared.memory_disk.MemDisk.{MemDisk};
ghost use Rattle.disk_model.specs.declared.names.DiskName.{DiskName as DiskNameValue};

use crate::arms::Failing;
use crate::memory_shelf::MemShelf;
use crate::tallies::Tally;
use crate::{DiskName, HandedOut, MemDisk, Pick};
use samza_model::{Bin, NoMemory, Plain};
use std::alloc::Global;

pub(crate) fn copy_text(alloc: Global, text: &Option<Vec<u8>>) -> Result<Option<Vec<u8>>, NoMemory>
    ensures { IfOk result (λ t. text_in (λ v. v.items) t ≡ text_in (λ v. v.items) text.now) }
{
    match text {
        None => Ok(None),
        Some(bytes) => Ok(Some(Vec::from_slice(alloc, bytes.as_slice())?)),
    }
}

pub(crate) fn stream_name(alloc: Global, system: &Bin, stream: &Bin) -> Result<DiskName, NoMemory>
    ensures { IfOk result (λ n. n ≡ DiskName.Stream system.now stream.now) }
{
    Ok(DiskName::Stream {
        system: system.copy(alloc)?,
        stream: stream.copy(alloc)?,
    })
}

/// One more than the greatest file number of a disk, at most 2^32 - 1.
pub(crate) fn count_of_files(handed: &HandedOut<MemDisk>, name: &DiskName) -> u32
    ensures { result ≡ min (number_in mem_file_count (held_under handed.now name.now))
        (2 ^ 32 - 1) }
{
    match handed.held(name) {
        Some(disk) => disk.file_count().min(0xffff_ffff) as u32,
        None => 0,
    }
}

/// A shelf with a copy of these bytes.
pub(crate) fn new_shelf(
    alloc: Global,
    name: &DiskName,
    file: u32,
    bytes: &[u8],
    failing: Failing,
) -> Result<MemShelf, NoMemory>
    ensures bytes { IfOk result (λ s. shelf_bytes s ≡ bytes.now) }
    ensures name { IfOk result (λ s. shelf_name s ≡ name.now) }
    ensures file { IfOk result (λ s. shelf_file s ≡ file) }
    ensures fresh { IfOk result (λ s. shelf_faults s ≡ 0) }
    ensures fails { IfOk result (λ s. (number : ℕ)
        → shelf_fails s number ≡ fails_at failing.fail_at.items failing.stop_after number) }
    ensures calls { IfOk result (λ s. shelf_calls s ≡ 0) }
{
    let name = name.copy(alloc)?;
    let bytes = Vec::from_slice(alloc, bytes)?;
    Ok(MemShelf {
        name,
        file,
        bytes,
        tally: Tally {
            calls: 0,
            faults: 0,
            from: 0,
            fail_at: failing.fail_at,
            stop_after: failing.stop_after,
        },
    })
}

/// The disk as it is handed out.
pub(crate) fn as_handle(disk: MemDisk, failing: Failing) -> MemDisk
    ensures disk { IsSameDisk disk result }
    ensures name { mem_name result ≡ mem_name disk }
    ensures files { mem_file_count result ≡ mem_file_count disk }
    ensures faults { mem_faults result ≡ 0 }
    ensures capacity { mem_capacity result ≡ mem_capacity disk }
    ensures fails { (number : ℕ)
        → mem_fails result number ≡ fails_at failing.fail_at.items failing.stop_after
        (number - mem_calls disk) }
{
    let mut disk = disk;
    disk.begin_handle();
    disk.arm(failing.fail_at, failing.stop_after);
    disk
}

/// Puts bytes in the place of a file of the disk that is held of a name.
pub(crate) fn place_held(handed: &mut HandedOut<MemDisk>, name: &DiskName, file: u32, bytes: &[u8])
    requires fits { (d : MemDisk) → held_under handed.old name.now ≡ Some d
        → CanPlace d file (length bytes.now) }
    ensures placed { OnHeld (IsPlaced file bytes.now) (held_under handed.old name.now)
        (held_under handed.new name.now) }
    ensures elsewhere { (n : DiskNameValue) → n ≢ name.now
        → held_under handed.new n ≡ held_under handed.old n }
    ensures disks { AsMany (disks_of handed.old) (disks_of handed.new) }
    ensures shelves { AsMany (shelves_of handed.old) (shelves_of handed.new) }
{
    let Some(mut disk) = handed.lend_disk(name) else {
        return;
    };
    disk.place(file, bytes);
    handed.take_disk(name, disk);
}

/// Puts what a crash leaves of the disk that is held of a name in its place.
pub(crate) fn crash_held(handed: &mut HandedOut<MemDisk>, name: &DiskName, pick: Pick)
    ensures crashed { OnHeld (IsCrashed pick) (held_under handed.old name.now)
        (held_under handed.new name.now) }
    ensures elsewhere { (n : DiskNameValue) → n ≢ name.now
        → held_under handed.new n ≡ held_under handed.old n }
    ensures disks { AsMany (disks_of handed.old) (disks_of handed.new) }
    ensures shelves { AsMany (shelves_of handed.old) (shelves_of handed.new) }
{
    if let Some(disk) = handed.lend_disk(name) {
        handed.take_disk(name, disk.crash(pick));
    }
}
