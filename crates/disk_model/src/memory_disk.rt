// A disk in memory, which may be told which calls fail, and shows what a crash leaves.
ghost use Rattle.std.specs.Prelude.{◌≡◌, ◌<◌, ◌^◌, min};
ghost use Rattle.disk_model.specs.TraceWords.{calls_noted};

use crate::memory_steps::{read_from, sync_entry};
use crate::tallies::Tally;
use crate::traces::{Entry, Trace};
use crate::{Disk, DiskFault, DiskName, Pick};
use samza_model::NoMemory;
use std::alloc::Global;

/// A disk in memory. It takes all its memory when it is made.
#[derive(Drop)]
pub struct MemDisk {
    name: DiskName,
    trace: Trace,
    tally: Tally,
    ghost counted: { calls_noted trace ≡ min tally.calls trace.limit },
    ghost small: { trace.limit < 2 ^ 64 },
}

impl MemDisk {
    ghost use Rattle.std.specs.Prelude.{◌≡◌, ◌↔◌, ◌+◌, ◌-◌, ℕ, [], IfOk, IsTrue, false, length, max};
    ghost use Rattle.samza_model.specs.Files.{Image};
    ghost use Rattle.disk_model.specs.Images.{Only, SameElsewhere};
    ghost use Rattle.disk_model.specs.MemoryDisk.{mem_file_count, mem_size, mem_room, mem_limit, mem_capacity, mem_used, mem_fails, mem_states, SameTold, CanPlace, IsSameDisk};
    ghost use Rattle.disk_model.specs.Picks.{IsPicked};
    ghost use Rattle.disk_model.specs.Tallies.{fails_at};

    /// A disk of empty files.
    ///
    /// `files` is the number of its files, which are numbered from 0, `room` the greatest size of one file and of the
    /// bytes that are written in all, and `calls` the greatest number of calls. A write past the room fails, and so
    /// does a call past `calls`. The calls with the numbers `fail_at` fail too, counted from 0, and all behind the
    /// first `stop_after`.
    pub fn new(
        alloc: Global,
        name: DiskName,
        files: u32,
        room: u64,
        calls: u64,
        fail_at: Vec<u64>,
        stop_after: Option<u64>,
    ) -> Result<MemDisk, NoMemory>
        ensures name { IfOk result (λ d. ⟦<MemDisk as Disk>⟧.name d ≡ name) }
        ensures reads { IfOk result (λ d. (f : ℕ) → ⟦<MemDisk as Disk>⟧.reads d f ≡ []) }
        ensures images { IfOk result (λ d. (c : Image) → ⟦<MemDisk as Disk>⟧.images d c
            ↔ ((f : ℕ) → c f ≡ [])) }
        ensures images_since { IfOk result (λ d. (k : ℕ) (c : Image)
            → ⟦<MemDisk as Disk>⟧.images_since d k c ↔ ((k ≡ 0) × ((f : ℕ) → c f ≡ []))) }
        ensures calls { IfOk result (λ d. ⟦<MemDisk as Disk>⟧.call_number d ≡ 0) }
        ensures faults { IfOk result (λ d. ⟦<MemDisk as Disk>⟧.fault_count d ≡ 0) }
        ensures files { IfOk result (λ d. mem_file_count d ≡ 0) }
        ensures size { IfOk result (λ d. mem_size d ≡ files) }
        ensures room { IfOk result (λ d. mem_room d ≡ room) }
        ensures limit { IfOk result (λ d. mem_limit d ≡ calls) }
        ensures capacity { IfOk result
            (λ d. mem_capacity d ≡ record { files = files; room = room; calls = calls; used = 0 }) }
        ensures fails { IfOk result (λ d. (number : ℕ)
            → mem_fails d number ≡ fails_at fail_at.items stop_after number) }
    {
        Ok(MemDisk {
            name,
            trace: Trace::new(alloc, files, room as usize, calls as usize)?,
            tally: Tally {
                calls: 0,
                faults: 0,
                from: 0,
                fail_at,
                stop_after,
            },
        })
    }

    /// A file's bytes, as a read gives them. One that isn't there has none.
    pub fn bytes(&self, file: u32) -> &[u8]
        ensures { result.now ≡ ⟦<MemDisk as Disk>⟧.reads self.now file }
    {
        self.trace.bytes(file)
    }

    /// Says anew which calls fail: those with these numbers, counted from 0 from now on, and all behind the first
    /// `stop_after`.
    pub fn arm(&mut self, fail_at: Vec<u64>, stop_after: Option<u64>)
        ensures disk { IsSameDisk self.old self.new }
        ensures name { ⟦<MemDisk as Disk>⟧.name self.new ≡ ⟦<MemDisk as Disk>⟧.name self.old }
        ensures files { mem_file_count self.new ≡ mem_file_count self.old }
        ensures faults { ⟦<MemDisk as Disk>⟧.fault_count self.new ≡ ⟦<MemDisk as Disk>⟧.fault_count
            self.old }
        ensures capacity { mem_capacity self.new ≡ mem_capacity self.old }
        ensures fails { (number : ℕ)
            → mem_fails self.new number ≡ fails_at fail_at.items stop_after
            (number - ⟦<MemDisk as Disk>⟧.call_number self.old) }
    {
        self.tally.from = self.tally.calls;
        self.tally.fail_at = fail_at;
        self.tally.stop_after = stop_after;
    }

    /// The disk that a crash now leaves, whose one image is what it reads. Its calls and faults are counted from 0, no call
    /// is told to fail, and the record is empty. It takes no memory.
    pub fn crash(self, pick: Pick) -> MemDisk
        ensures image { ⟦<MemDisk as Disk>⟧.images self (⟦<MemDisk as Disk>⟧.reads result) }
        ensures one_image { (f : ℕ)
            → Only f (⟦<MemDisk as Disk>⟧.reads result) (⟦<MemDisk as Disk>⟧.images result) }
        ensures picked { (f : ℕ)
            → IsPicked pick (mem_states self f) (⟦<MemDisk as Disk>⟧.reads result f) }
        ensures newest { pick ≡ Pick.New → (f : ℕ)
            → ⟦<MemDisk as Disk>⟧.reads result f ≡ ⟦<MemDisk as Disk>⟧.reads self f }
        ensures name { ⟦<MemDisk as Disk>⟧.name result ≡ ⟦<MemDisk as Disk>⟧.name self }
        ensures calls { ⟦<MemDisk as Disk>⟧.call_number result ≡ 0 }
        ensures faults { ⟦<MemDisk as Disk>⟧.fault_count result ≡ 0 }
        ensures none_fails { (number : ℕ) → mem_fails result number ≡ false }
        ensures files { mem_file_count result ≡ mem_file_count self }
        ensures size { mem_size result ≡ mem_size self }
        ensures room { mem_room result ≡ mem_room self }
        ensures limit { mem_limit result ≡ mem_limit self }
        ensures used { mem_used result ≡ 0 }
    {
        let mut disk = self;
        disk.trace.crash(pick);
        disk.tally.restart();
        disk
    }

    /// Counts the faults from 0 on.
    pub(crate) fn begin_handle(&mut self)
        ensures disk { IsSameDisk self.old self.new }
        ensures name { ⟦<MemDisk as Disk>⟧.name self.new ≡ ⟦<MemDisk as Disk>⟧.name self.old }
        ensures files { mem_file_count self.new ≡ mem_file_count self.old }
        ensures faults { ⟦<MemDisk as Disk>⟧.fault_count self.new ≡ 0 }
        ensures told { SameTold self.old self.new }
    {
        self.tally.faults = 0;
    }

    /// Whether so many bytes can stand in this file.
    pub(crate) fn can_place(&self, file: u32, len: usize) -> bool
        ensures { IsTrue result ↔ CanPlace self.now file len }
    {
        (file as usize) < self.trace.files.len() && len <= self.trace.room
    }

    /// Puts bytes in the place of a file, as if they had been there from the start.
    pub(crate) fn place(&mut self, file: u32, bytes: &[u8])
        requires { CanPlace self.old file (length bytes.now) }
        ensures name { ⟦<MemDisk as Disk>⟧.name self.new ≡ ⟦<MemDisk as Disk>⟧.name self.old }
        ensures files { mem_file_count self.new ≡ max (mem_file_count self.old) (file + 1) }
        ensures placed { ⟦<MemDisk as Disk>⟧.reads self.new file ≡ bytes.now }
        ensures one_image { Only file (⟦<MemDisk as Disk>⟧.reads self.new)
            (⟦<MemDisk as Disk>⟧.images self.new) }
        ensures elsewhere { SameElsewhere file (⟦<MemDisk as Disk>⟧.reads self.old)
            (⟦<MemDisk as Disk>⟧.reads self.new) }
        ensures calls { ⟦<MemDisk as Disk>⟧.call_number self.new ≡ ⟦<MemDisk as Disk>⟧.call_number
            self.old }
        ensures capacity { mem_capacity self.new ≡ mem_capacity self.old }
    {
        self.trace.place(file as usize, bytes);
    }

    /// One more than the greatest number of a file that was written or put, and 0 where there is none.
    pub(crate) fn file_count(&self) -> usize
        ensures { result ≡ mem_file_count self.now }
    {
        self.trace.there
    }
}

impl Disk for MemDisk {
    ghost use Rattle.std.specs.Prelude.{◌≡◌, ◌+◌, ◌-◌, ◌^◌, ◌≤◌, ◌||◌, IfOk, OnErr, OnOk, drop, is_err, length, max, not, take};
    ghost use Rattle.samza_model.specs.Counters.{next_number};
    ghost use Rattle.disk_model.specs.Images.{Follows, HasCause, Joins, Keeps, MayMake, Only, Shortened, Stays, TornCut, TornWrite, Written};
    ghost use Rattle.disk_model.specs.MemoryDisk.{mem_file_count, mem_name, mem_reads, mem_images, mem_images_since, mem_calls, mem_faults, mem_fails, mem_capacity, can_write, is_spent, after_write, SameFails, SameTold};
    ghost use Rattle.disk_model.specs.MemoryLaws.{mem_none_above, mem_read_is_image, mem_counts_now, mem_only_now};

    ghost tells = { Unit {0} };

    ghost name = { mem_name };

    ghost reads = { mem_reads };

    ghost file_count = { mem_file_count };

    ghost images = { mem_images };

    ghost images_since = { mem_images_since };

    ghost call_number = { mem_calls };

    ghost fault_count = { mem_faults };

    fn size(&mut self, file: u32) -> Result<u64, DiskFault>
        ensures size { IfOk result (λ n. n ≡ length (mem_reads self.old file)) }
        ensures reads { mem_reads self.new ≡ mem_reads self.old }
        ensures there { mem_file_count self.new ≡ mem_file_count self.old }
        ensures crash { Keeps (mem_images self.old) (mem_images self.new) }
        ensures none_lost { Keeps (mem_images self.new) (mem_images self.old) }
        ensures time { Joins (mem_calls self.old) (mem_images_since self.old)
            (mem_images_since self.new) (mem_images self.new) }
        ensures called { mem_calls self.new ≡ next_number (mem_calls self.old) }
        ensures cause { HasCause (mem_calls self.old) (mem_faults self.old) (mem_faults self.new)
            result }
        ensures name { mem_name self.new ≡ mem_name self.old }
        ensures fails { is_err result
            ≡ (mem_fails self.old (mem_calls self.old) || is_spent self.old) }
        ensures told { SameTold self.old self.new }
    {
        let failing = self.tally.begin();
        let noted = self.trace.note(Entry::Quiet);
        let size = self.trace.bytes(file).len() as u64;
        self.tally.answer(failing, noted, size)
    }

    fn read_at(&mut self, file: u32, at: u64, into: &mut [u8]) -> Result<(), DiskFault>
        requires { at + length into.old ≤ length (mem_reads self.old file) }
        ensures bytes { OnOk result
            (into.new ≡ take (length into.old) (drop at (mem_reads self.old file))) }
        ensures reads { mem_reads self.new ≡ mem_reads self.old }
        ensures there { mem_file_count self.new ≡ mem_file_count self.old }
        ensures crash { Keeps (mem_images self.old) (mem_images self.new) }
        ensures none_lost { Keeps (mem_images self.new) (mem_images self.old) }
        ensures time { Joins (mem_calls self.old) (mem_images_since self.old)
            (mem_images_since self.new) (mem_images self.new) }
        ensures called { mem_calls self.new ≡ next_number (mem_calls self.old) }
        ensures cause { HasCause (mem_calls self.old) (mem_faults self.old) (mem_faults self.new)
            result }
        ensures name { mem_name self.new ≡ mem_name self.old }
        ensures fails { is_err result
            ≡ (mem_fails self.old (mem_calls self.old) || is_spent self.old) }
        ensures told { SameTold self.old self.new }
    {
        let failing = self.tally.begin();
        let noted = self.trace.note(Entry::Quiet);
        read_from(self.trace.bytes(file), at as usize, into);
        self.tally.answer(failing, noted, ())
    }

    fn write_at(&mut self, file: u32, at: u64, bytes: &[u8]) -> Result<(), DiskFault>
        requires { at ≤ length (mem_reads self.old file) }
        ensures written { OnOk result
            (Written file at bytes.now (mem_reads self.old) (mem_reads self.new)) }
        ensures there { MayMake file (mem_file_count self.old) (mem_file_count self.new) }
        ensures made { OnOk result (mem_file_count self.new ≡ max (mem_file_count self.old)
            (file + 1)) }
        ensures unmade { mem_calls self.old ≡ 2 ^ 64 - 1
            → mem_file_count self.new ≡ mem_file_count self.old }
        ensures crash { Follows (TornWrite file at (length bytes.now)) (mem_images self.old)
            (mem_images self.new) }
        ensures spent { mem_calls self.old ≡ 2 ^ 64 - 1
            → Stays (mem_reads self.old) (mem_reads self.new) (mem_images self.old)
            (mem_images self.new) }
        ensures time { Joins (mem_calls self.old) (mem_images_since self.old)
            (mem_images_since self.new) (mem_images self.new) }
        ensures called { mem_calls self.new ≡ next_number (mem_calls self.old) }
        ensures cause { HasCause (mem_calls self.old) (mem_faults self.old) (mem_faults self.new)
            result }
        ensures name { mem_name self.new ≡ mem_name self.old }
        ensures fails { is_err result
            ≡ (mem_fails self.old (mem_calls self.old) || is_spent self.old || not
            (can_write self.old file at (length bytes.now))) }
        ensures capacity { mem_capacity self.new ≡ after_write self.old file at (length bytes.now) }
        ensures told { SameFails self.old self.new }
    {
        let failing = self.tally.begin();
        let made = self.trace.write(file, at as usize, bytes);
        self.tally.answer(failing, made, ())
    }

    fn cut(&mut self, file: u32, size: u64) -> Result<(), DiskFault>
        requires { size ≤ length (mem_reads self.old file) }
        ensures cut { OnOk result (Shortened file size (mem_reads self.old) (mem_reads self.new)) }
        ensures there { mem_file_count self.new ≡ mem_file_count self.old }
        ensures crash { Follows (TornCut file size) (mem_images self.old) (mem_images self.new) }
        ensures spent { mem_calls self.old ≡ 2 ^ 64 - 1
            → Stays (mem_reads self.old) (mem_reads self.new) (mem_images self.old)
            (mem_images self.new) }
        ensures time { Joins (mem_calls self.old) (mem_images_since self.old)
            (mem_images_since self.new) (mem_images self.new) }
        ensures called { mem_calls self.new ≡ next_number (mem_calls self.old) }
        ensures cause { HasCause (mem_calls self.old) (mem_faults self.old) (mem_faults self.new)
            result }
        ensures name { mem_name self.new ≡ mem_name self.old }
        ensures fails { is_err result
            ≡ (mem_fails self.old (mem_calls self.old) || is_spent self.old) }
        ensures told { SameTold self.old self.new }
    {
        let failing = self.tally.begin();
        let made = self.trace.cut(file, size as usize);
        self.tally.answer(failing, made, ())
    }

    fn sync(&mut self, file: u32) -> Result<(), DiskFault>
        ensures durable { OnOk result (Only file (mem_reads self.old) (mem_images self.new)) }
        ensures reads { mem_reads self.new ≡ mem_reads self.old }
        ensures there { mem_file_count self.new ≡ mem_file_count self.old }
        ensures crash { Keeps (mem_images self.old) (mem_images self.new) }
        ensures none_lost { OnErr result (Keeps (mem_images self.new) (mem_images self.old)) }
        ensures time { Joins (mem_calls self.old) (mem_images_since self.old)
            (mem_images_since self.new) (mem_images self.new) }
        ensures called { mem_calls self.new ≡ next_number (mem_calls self.old) }
        ensures cause { HasCause (mem_calls self.old) (mem_faults self.old) (mem_faults self.new)
            result }
        ensures name { mem_name self.new ≡ mem_name self.old }
        ensures fails { is_err result
            ≡ (mem_fails self.old (mem_calls self.old) || is_spent self.old) }
        ensures told { SameTold self.old self.new }
    {
        let failing = self.tally.begin();
        let synced = self.trace.note(sync_entry(failing, file));
        self.tally.answer(failing, synced, ())
    }

    fn calls(&self) -> u64 {
        self.tally.calls
    }

    fn faults(&self) -> u64 {
        self.tally.faults
    }

    ghost none_above = { mem_none_above };

    ghost read_is_image = { mem_read_is_image };

    ghost counts_now = { mem_counts_now };

    ghost only_now = { mem_only_now };
}
