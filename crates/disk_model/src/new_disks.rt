// Disks that a host in memory makes.
ghost use Rattle.std.specs.Prelude.{◌≡◌, ◌↔◌, ℕ, [], IfOk};
ghost use Rattle.samza_model.specs.Files.{Image};
ghost use Rattle.disk_model.specs.MemoryDisk.{mem_name, mem_reads, mem_images, mem_images_since, mem_calls, mem_capacity, mem_file_count};
ghost use Rattle.disk_model.specs.MemoryHost.{files_for, new_capacity};

use crate::{DiskName, MemDisk};
use samza_model::{NoMemory, Plain};
use std::alloc::Global;

/// The greatest number of files of a task's disk.
const TASK_FILES: u32 = 64;

/// The greatest number of files of a stream's disk.
const STREAM_FILES: u32 = 256;

/// The number of files of a disk of this name.
pub(crate) fn files_of(name: &DiskName) -> u32
    ensures { result ≡ files_for name.now }
{
    match name {
        DiskName::Task(_) => TASK_FILES,
        DiskName::Stream { .. } => STREAM_FILES,
    }
}

/// A disk of this name without files, whose calls all go well.
pub(crate) fn new_disk(
    alloc: Global,
    name: &DiskName,
    room: u64,
    calls: u64,
) -> Result<MemDisk, NoMemory>
    ensures name { IfOk result (λ d. mem_name d ≡ name.now) }
    ensures reads { IfOk result (λ d. (f : ℕ) → mem_reads d f ≡ []) }
    ensures images { IfOk result (λ d. (c : Image) → mem_images d c ↔ ((f : ℕ) → c f ≡ [])) }
    ensures images_since { IfOk result (λ d. (k : ℕ) (c : Image) → mem_images_since d k c
        ↔ ((k ≡ 0) × ((f : ℕ) → c f ≡ []))) }
    ensures calls { IfOk result (λ d. mem_calls d ≡ 0) }
    ensures files { IfOk result (λ d. mem_file_count d ≡ 0) }
    ensures capacity { IfOk result (λ d. mem_capacity d ≡ new_capacity (room, calls) name.now) }
{
    MemDisk::new(
        alloc,
        name.copy(alloc)?,
        files_of(name),
        room,
        calls,
        Vec::new(alloc),
        None,
    )
}
