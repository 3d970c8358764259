// A log's file as it is found: how far its frames reach, and what stands behind them cut off.
ghost use Rattle.std.specs.Prelude.{◌≡◌, ◌+◌, ◌^◌, ◌<◌, ◌≤◌, ℕ, true, false, length, IfOk, IfErr, OnOk, OnErr};
ghost use Rattle.samza_model.specs.Counters.{Rose};
ghost use Rattle.disk_model.specs.Images.{Only};
ghost use Rattle.topic_log.specs.Damage.{IsDamagedAt};
ghost use Rattle.topic_log.specs.Faults.{IsWalkFault};
ghost use Rattle.topic_log.specs.Moves.{Moves, Rests, Same};
ghost use Rattle.topic_log.specs.Walks.{Reaches, Finds, IsGate, LacksGate, Settled, Repairs};

use crate::LogFault;
use crate::calls::{cut, read, size, sync, write};
use crate::extents::Extent;
use crate::windows::{PIECE, Window};
use disk_model::Disk;
use log_frame::{CLOSED_GATE, OPEN_GATE};
use std::alloc::Global;

/// A greater file isn't walked: its sizes could leave a number's range.
const TOO_LARGE: u64 = 1 << 62;

/// How far the frames of a file of two or more bytes reach.
fn walk<D: Disk>(alloc: Global, disk: &mut D, file: u32, size: u64) -> Result<Extent, LogFault>
    requires small { size < 2 ^ 62 }
    requires long { 2 ≤ size }
    requires size { D.tells → size ≡ length (D.reads disk.old file) }
    ensures reaches { IfOk result (λ e. D.tells → Reaches (D.reads disk.old file) e) }
    ensures inside { IfOk result (λ e. e.gate < size) }
    ensures damaged { IfErr result (λ e. (at : ℕ) → e ≡ LogFault.Damaged at → D.tells
        → IsDamagedAt (D.reads disk.old file) at) }
    ensures rests { D.tells
        → Rests D.reads D.call_number D.images D.images_since disk.old disk.new }
    ensures fault { IfErr result IsWalkFault }
    ensures device { IfErr result (λ e. e ≡ LogFault.Device
        → Rose (D.fault_count disk.old) (D.fault_count disk.new)) }
    ensures later { D.fault_count disk.old ≤ D.fault_count disk.new }
    ensures name { D.name disk.new ≡ D.name disk.old }
{
    let mut window = Window::new(alloc, file, size, PIECE);
    let mut extent = Extent::start();
    'gates: loop {
        match window.batch_at(disk, extent.gate) {
            Ok(Some(checked)) => extent = extent.grown(checked.used, checked.count as u64),
            Ok(None) => return Ok(extent),
            Err(fault) => return Err(fault),
        }
    }
}

/// How far the frames of a file reach. One of no or one byte is empty.
fn extent_of<D: Disk>(alloc: Global, disk: &mut D, file: u32, size: u64) -> Result<Extent, LogFault>
    requires size { D.tells → size ≡ length (D.reads disk.old file) }
    ensures finds { IfOk result (λ e. D.tells → Finds (D.reads disk.old file) e) }
    ensures inside { IfOk result (λ e. 2 ≤ size → e.gate < size) }
    ensures damaged { IfErr result (λ e. (at : ℕ) → e ≡ LogFault.Damaged at → D.tells
        → IsDamagedAt (D.reads disk.old file) at) }
    ensures reads { D.tells → D.reads disk.new ≡ D.reads disk.old }
    ensures moves { D.tells
        → Moves D.reads D.call_number D.images D.images_since disk.old disk.new Same }
    ensures fault { IfErr result IsWalkFault }
    ensures device { IfErr result (λ e. e ≡ LogFault.Device
        → Rose (D.fault_count disk.old) (D.fault_count disk.new)) }
    ensures later { D.fault_count disk.old ≤ D.fault_count disk.new }
    ensures name { D.name disk.new ≡ D.name disk.old }
{
    if size < 2 {
        return Ok(Extent::start());
    }
    if TOO_LARGE <= size {
        return Err(LogFault::NoMemory);
    }
    walk(alloc, disk, file, size)
}

/// A file's size, and how far its frames reach.
#[derive(Clone, Copy)]
pub(crate) struct Found {
    pub(crate) size: u64,
    pub(crate) extent: Extent,
}

/// Syncs the file, and reads it through.
pub(crate) fn look<D: Disk>(alloc: Global, disk: &mut D, file: u32) -> Result<Found, LogFault>
    ensures size { IfOk result (λ f. D.tells → f.size ≡ length (D.reads disk.old file)) }
    ensures finds { IfOk result (λ f. D.tells → Finds (D.reads disk.old file) f.extent) }
    ensures inside { IfOk result (λ f. 2 ≤ f.size → f.extent.gate < f.size) }
    ensures durable { OnOk result (D.tells → Only file (D.reads disk.new) (D.images disk.new)) }
    ensures damaged { IfErr result (λ e. (at : ℕ) → e ≡ LogFault.Damaged at → D.tells
        → IsDamagedAt (D.reads disk.old file) at) }
    ensures reads { D.tells → D.reads disk.new ≡ D.reads disk.old }
    ensures moves { D.tells
        → Moves D.reads D.call_number D.images D.images_since disk.old disk.new Same }
    ensures fault { IfErr result IsWalkFault }
    ensures device { IfErr result (λ e. e ≡ LogFault.Device
        → Rose (D.fault_count disk.old) (D.fault_count disk.new)) }
    ensures later { D.fault_count disk.old ≤ D.fault_count disk.new }
    ensures name { D.name disk.new ≡ D.name disk.old }
{
    sync(disk, file)?;
    let size = size(disk, file)?;
    let extent = extent_of(alloc, disk, file, size)?;
    Ok(Found { size, extent })
}

/// Whether a file of no or one byte has no gate yet, or an open one.
fn lacks_gate<D: Disk>(disk: &mut D, file: u32, size: u64) -> Result<bool, LogFault>
    requires short { size < 2 }
    requires size { D.tells → size ≡ length (D.reads disk.old file) }
    ensures gate { IfOk result (λ b. D.tells → b ≡ false → IsGate (D.reads disk.old file)) }
    ensures lacks { IfOk result (λ b. D.tells → b ≡ true → LacksGate (D.reads disk.old file)) }
    ensures reads { D.tells → D.reads disk.new ≡ D.reads disk.old }
    ensures moves { D.tells
        → Moves D.reads D.call_number D.images D.images_since disk.old disk.new Same }
    ensures fault { IfErr result (λ e. e ≡ LogFault.Device) }
    ensures device { OnErr result (Rose (D.fault_count disk.old) (D.fault_count disk.new)) }
    ensures later { D.fault_count disk.old ≤ D.fault_count disk.new }
    ensures name { D.name disk.new ≡ D.name disk.old }
{
    if size == 0 {
        return Ok(true);
    }
    let mut byte = [0u8; 1];
    read(disk, file, 0, &mut byte)?;
    Ok(byte[0] == OPEN_GATE)
}

/// Makes a closed gate in a file of no or one byte, where it has none.
fn put_gate<D: Disk>(disk: &mut D, file: u32, size: u64, gate: u64) -> Result<(), LogFault>
    requires short { size < 2 }
    requires size { D.tells → size ≡ length (D.reads disk.old file) }
    requires durable { D.tells → Only file (D.reads disk.old) (D.images disk.old) }
    ensures settled { OnOk result (D.tells
        → Settled file gate (D.reads disk.old) (D.reads disk.new)) }
    ensures durable { OnOk result (D.tells → Only file (D.reads disk.new) (D.images disk.new)) }
    ensures moves { D.tells
        → Moves D.reads D.call_number D.images D.images_since disk.old disk.new
        (Repairs file gate) }
    ensures fault { IfErr result (λ e. e ≡ LogFault.Device) }
    ensures device { OnErr result (Rose (D.fault_count disk.old) (D.fault_count disk.new)) }
    ensures later { D.fault_count disk.old ≤ D.fault_count disk.new }
    ensures name { D.name disk.new ≡ D.name disk.old }
{
    if !lacks_gate(disk, file, size)? {
        return Ok(());
    }
    write(disk, file, 0, &[CLOSED_GATE])?;
    sync(disk, file)
}

/// Cuts off what stands behind the last gate.
fn cut_behind<D: Disk>(disk: &mut D, file: u32, gate: u64) -> Result<(), LogFault>
    requires small { gate < 2 ^ 62 }
    requires long { D.tells → 2 ≤ length (D.reads disk.old file) }
    requires inside { D.tells → gate + 1 ≤ length (D.reads disk.old file) }
    ensures settled { OnOk result (D.tells
        → Settled file gate (D.reads disk.old) (D.reads disk.new)) }
    ensures durable { OnOk result (D.tells → Only file (D.reads disk.new) (D.images disk.new)) }
    ensures moves { D.tells
        → Moves D.reads D.call_number D.images D.images_since disk.old disk.new
        (Repairs file gate) }
    ensures fault { IfErr result (λ e. e ≡ LogFault.Device) }
    ensures device { OnErr result (Rose (D.fault_count disk.old) (D.fault_count disk.new)) }
    ensures later { D.fault_count disk.old ≤ D.fault_count disk.new }
    ensures name { D.name disk.new ≡ D.name disk.old }
{
    cut(disk, file, gate + 1)?;
    sync(disk, file)
}

/// Leaves the frames, and one closed gate behind them.
pub(crate) fn settle<D: Disk>(disk: &mut D, file: u32, size: u64, gate: u64) -> Result<(), LogFault>
    requires small { gate < 2 ^ 62 }
    requires inside { 2 ≤ size → gate < size }
    requires size { D.tells → size ≡ length (D.reads disk.old file) }
    requires durable { D.tells → Only file (D.reads disk.old) (D.images disk.old) }
    ensures settled { OnOk result (D.tells
        → Settled file gate (D.reads disk.old) (D.reads disk.new)) }
    ensures durable { OnOk result (D.tells → Only file (D.reads disk.new) (D.images disk.new)) }
    ensures moves { D.tells
        → Moves D.reads D.call_number D.images D.images_since disk.old disk.new
        (Repairs file gate) }
    ensures fault { IfErr result (λ e. e ≡ LogFault.Device) }
    ensures device { OnErr result (Rose (D.fault_count disk.old) (D.fault_count disk.new)) }
    ensures later { D.fault_count disk.old ≤ D.fault_count disk.new }
    ensures name { D.name disk.new ≡ D.name disk.old }
{
    if size < 2 {
        return put_gate(disk, file, size, gate);
    }
    if size == gate + 1 {
        return Ok(());
    }
    cut_behind(disk, file, gate)
}
