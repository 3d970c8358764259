// A file read in pieces: so many of its bytes are kept at a time.
ghost use Rattle.std.specs.Prelude.{◌≡◌, ◌+◌, ◌-◌, ◌^◌, ◌<◌, ◌≤◌, ◌↔◌, ℕ, List, Ok, Err, length, take, drop, vec_len, IsTrue, IfOk, IfErr, IfSome, OnOk, MatchOption};
ghost use Rattle.samza_model.specs.Counters.{Rose};
ghost use Rattle.log_frame.specs.Reading.{frame_at};
ghost use Rattle.log_frame.specs.Frame.{Begins};
ghost use Rattle.topic_log.specs.Faults.{IsReadFault, IsWalkFault};
ghost use Rattle.topic_log.specs.Moves.{Rests};
ghost use Rattle.topic_log.specs.Damage.{IsDamage, StopsAt};

use crate::LogFault;
use crate::calls::read;
use disk_model::Disk;
use log_frame::{BadAt, Checked, OPEN_GATE, check, frame_len};
use std::alloc::Global;

/// How many bytes are read at once where a file is gone through, and has as many.
pub(crate) const PIECE: u64 = 1 << 16;

/// Some of the first `size` bytes of a file: a piece of them, or a whole frame where that is longer.
#[derive(Debug, Drop)]
pub(crate) struct Window {
    pub(crate) file: u32,
    pub(crate) size: u64,
    piece: u64,
    from: u64,
    bytes: Vec<u8>,
}

/// Reads so many bytes of a file.
fn fill<D: Disk>(
    disk: &mut D,
    file: u32,
    at: u64,
    len: u64,
    bytes: &mut Vec<u8>,
) -> Result<(), LogFault>
    requires { D.tells → at + len ≤ length (D.reads disk.old file) }
    ensures bytes { OnOk result (D.tells
        → bytes.new.items ≡ take len (drop at (D.reads disk.old file))) }
    ensures len { OnOk result (length bytes.new.items ≡ len) }
    ensures rests { D.tells
        → Rests D.reads D.call_number D.images D.images_since disk.old disk.new }
    ensures fault { IfErr result IsReadFault }
    ensures device { IfErr result (λ e. e ≡ LogFault.Device
        → Rose (D.fault_count disk.old) (D.fault_count disk.new)) }
    ensures later { D.fault_count disk.old ≤ D.fault_count disk.new }
    ensures name { D.name disk.new ≡ D.name disk.old }
{
    bytes.resize(len as usize, 0)?;
    read(disk, file, at, bytes.as_mut_slice())
}

/// How many bytes the frame has that begins with these bytes, of which the first 8 suffice, where so many stand from its
/// first one on.
fn frame_size(header: &[u8], room: u64) -> Result<u64, BadAt>
    ensures within { IfOk result (λ n. (8 ≤ n) × (n ≤ room)) }
    ensures near { IfErr result (λ e. e.at ≤ 4) }
    ensures frame { (bytes : List ℕ) → header.now ≡ take 8 bytes → room ≡ length bytes
        → IfOk result (λ n. frame_at (take n bytes) ≡ frame_at bytes) }
    ensures bad { (bytes : List ℕ) → header.now ≡ take 8 bytes → room ≡ length bytes
        → IfErr result (λ e. frame_at bytes ≡ Err e.at) }
{
    match header.first_chunk::<8>() {
        Some(header) => frame_len(header, room),
        None => Err(BadAt { at: 0 }),
    }
}

impl Window {
    ghost use Rattle.topic_log.specs.Walks.{Shows, Covers, IsBatch, seen};

    /// A window that shows nothing yet. So many bytes are read at once, where there are as many.
    pub(crate) fn new(alloc: Global, file: u32, size: u64, piece: u64) -> Window
        ensures file { result.file ≡ file }
        ensures size { result.size ≡ size }
        ensures shows { (bytes : List ℕ) → Shows result bytes }
    {
        Window {
            file,
            size,
            piece,
            from: 0,
            bytes: Vec::new(alloc),
        }
    }

    fn covers(&self, at: u64, len: u64) -> bool
        requires { at + len < 2 ^ 64 }
        ensures { IsTrue result → Covers self.now at len }
    {
        if at < self.from {
            return false;
        }
        at - self.from + len <= self.bytes.len() as u64
    }

    /// Has these bytes of the file at hand.
    pub(crate) fn load<D: Disk>(&mut self, disk: &mut D, at: u64, len: u64) -> Result<(), LogFault>
        requires inside { at + len ≤ self.old.size }
        requires small { self.old.size < 2 ^ 62 }
        requires size { D.tells → self.old.size ≤ length (D.reads disk.old self.old.file) }
        requires shows { D.tells → Shows self.old (D.reads disk.old self.old.file) }
        ensures covers { OnOk result (Covers self.new at len) }
        ensures shows { OnOk result (D.tells → Shows self.new (D.reads disk.old self.old.file)) }
        ensures file { self.new.file ≡ self.old.file }
        ensures size { self.new.size ≡ self.old.size }
        ensures rests { D.tells
            → Rests D.reads D.call_number D.images D.images_since disk.old disk.new }
        ensures fault { IfErr result IsReadFault }
        ensures device { IfErr result (λ e. e ≡ LogFault.Device
            → Rose (D.fault_count disk.old) (D.fault_count disk.new)) }
        ensures later { D.fault_count disk.old ≤ D.fault_count disk.new }
        ensures name { D.name disk.new ≡ D.name disk.old }
    {
        if self.covers(at, len) {
            return Ok(());
        }
        let piece = self.piece.min(self.size - at);
        self.from = at;
        fill(disk, self.file, at, piece.max(len), &mut self.bytes)
    }

    /// These bytes of the file.
    pub(crate) fn view(&self, at: u64, len: u64) -> &[u8]
        requires { Covers self.now at len }
        ensures view { result.now ≡ take len (drop (at - self.now.from) self.now.bytes.items) }
        ensures len { length result.now ≡ len }
    {
        let (_, behind) = self.bytes.as_slice().split_at((at - self.from) as usize);
        behind.split_at(len as usize).0
    }

    /// The number of bytes of the frame that begins here; its records are not looked at. Damaged where it has no header,
    /// or isn't whole.
    pub(crate) fn size_at<D: Disk>(&mut self, disk: &mut D, at: u64) -> Result<u64, LogFault>
        requires at { at ≤ self.old.size }
        requires small { self.old.size < 2 ^ 62 }
        requires size { D.tells → self.old.size ≤ length (D.reads disk.old self.old.file) }
        requires shows { D.tells → Shows self.old (D.reads disk.old self.old.file) }
        ensures within { IfOk result (λ n. (8 ≤ n) × (at + n ≤ self.old.size)) }
        ensures frame { IfOk result (λ n. D.tells
            → frame_at (take n (drop at (D.reads disk.old self.old.file)))
            ≡ frame_at (seen self.old.size at (D.reads disk.old self.old.file))) }
        ensures damaged { IfErr result (λ e. (place : ℕ) → e ≡ LogFault.Damaged place → D.tells
            → StopsAt (seen self.old.size at (D.reads disk.old self.old.file)) at place) }
        ensures file { self.new.file ≡ self.old.file }
        ensures size { self.new.size ≡ self.old.size }
        ensures shows { OnOk result (D.tells → Shows self.new (D.reads disk.old self.old.file)) }
        ensures rests { D.tells
            → Rests D.reads D.call_number D.images D.images_since disk.old disk.new }
        ensures fault { IfErr result IsWalkFault }
        ensures device { IfErr result (λ e. e ≡ LogFault.Device
            → Rose (D.fault_count disk.old) (D.fault_count disk.new)) }
        ensures later { D.fault_count disk.old ≤ D.fault_count disk.new }
        ensures name { D.name disk.new ≡ D.name disk.old }
    {
        let room = self.size - at;
        let header = room.min(8);
        self.load(disk, at, header)?;
        match frame_size(self.view(at, header), room) {
            Ok(size) => Ok(size),
            Err(bad) => Err(LogFault::Damaged { at: at + bad.at }),
        }
    }

    /// Tests the frame that begins here.
    fn frame_behind<D: Disk>(&mut self, disk: &mut D, at: u64) -> Result<Checked, LogFault>
        requires at { at ≤ self.old.size }
        requires small { self.old.size < 2 ^ 62 }
        requires size { D.tells → self.old.size ≡ length (D.reads disk.old self.old.file) }
        requires shows { D.tells → Shows self.old (D.reads disk.old self.old.file) }
        ensures within { IfOk result (λ c. (c.count ≤ c.used) × (at + c.used ≤ self.old.size)) }
        ensures frame { IfOk result (λ c. D.tells
            → Begins (drop at (D.reads disk.old self.old.file)) c.count c.used) }
        ensures damaged { IfErr result (λ e. (place : ℕ) → e ≡ LogFault.Damaged place → D.tells
            → StopsAt (drop at (D.reads disk.old self.old.file)) at place) }
        ensures file { self.new.file ≡ self.old.file }
        ensures size { self.new.size ≡ self.old.size }
        ensures shows { OnOk result (D.tells → Shows self.new (D.reads disk.old self.old.file)) }
        ensures rests { D.tells
            → Rests D.reads D.call_number D.images D.images_since disk.old disk.new }
        ensures fault { IfErr result IsWalkFault }
        ensures device { IfErr result (λ e. e ≡ LogFault.Device
            → Rose (D.fault_count disk.old) (D.fault_count disk.new)) }
        ensures later { D.fault_count disk.old ≤ D.fault_count disk.new }
        ensures name { D.name disk.new ≡ D.name disk.old }
    {
        let len = self.size_at(disk, at)?;
        self.load(disk, at, len)?;
        match check(self.view(at, len)) {
            Ok(checked) => Ok(checked),
            Err(bad) => Err(LogFault::Damaged { at: at + bad.at }),
        }
    }

    /// The frame behind the gate that stands here, or `None` where the gate is closed.
    pub(crate) fn batch_at<D: Disk>(
        &mut self,
        disk: &mut D,
        gate: u64,
    ) -> Result<Option<Checked>, LogFault>
        requires gate { gate ≤ self.old.size }
        requires small { self.old.size < 2 ^ 62 }
        requires size { D.tells → self.old.size ≡ length (D.reads disk.old self.old.file) }
        requires shows { D.tells → Shows self.old (D.reads disk.old self.old.file) }
        ensures inside { OnOk result (gate < self.old.size) }
        ensures within { IfOk result (λ o. IfSome o (λ c. (c.count ≤ c.used)
            × (gate + 1 + c.used ≤ self.old.size))) }
        ensures batch { IfOk result (λ o. D.tells
            → IsBatch o (drop gate (D.reads disk.old self.old.file))) }
        ensures damaged { IfErr result (λ e. (place : ℕ) → e ≡ LogFault.Damaged place → D.tells
            → IsDamage (drop gate (D.reads disk.old self.old.file)) gate place) }
        ensures file { self.new.file ≡ self.old.file }
        ensures size { self.new.size ≡ self.old.size }
        ensures shows { OnOk result (D.tells → Shows self.new (D.reads disk.old self.old.file)) }
        ensures rests { D.tells
            → Rests D.reads D.call_number D.images D.images_since disk.old disk.new }
        ensures fault { IfErr result IsWalkFault }
        ensures device { IfErr result (λ e. e ≡ LogFault.Device
            → Rose (D.fault_count disk.old) (D.fault_count disk.new)) }
        ensures later { D.fault_count disk.old ≤ D.fault_count disk.new }
        ensures name { D.name disk.new ≡ D.name disk.old }
    {
        if self.size == gate {
            return Err(LogFault::Damaged { at: gate });
        }
        self.load(disk, gate, 1)?;
        let byte = self.view(gate, 1)[0];
        if byte != OPEN_GATE {
            return Ok(None);
        }
        match self.frame_behind(disk, gate + 1) {
            Ok(checked) => Ok(Some(checked)),
            Err(fault) => Err(fault),
        }
    }
}
