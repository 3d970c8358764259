// Frames put behind a log's last gate, as bytes. What is written counts only when that gate is opened, at the end.
ghost use Rattle.std.specs.Prelude.{◌≡◌, ◌+◌, ◌^◌, ◌≤◌, length, IfErr, OnOk, OnErr};
ghost use Rattle.samza_model.specs.Counters.{Rose};
ghost use Rattle.samza_model.specs.Limits.{file_limit};
ghost use Rattle.disk_model.specs.Images.{Only};
ghost use Rattle.topic_log.specs.Moves.{Moves, KeepsFront};
ghost use Rattle.topic_log.specs.Steps.{closed_frames, staged, Extended, Opened, OpensGates, HasClosed, Stages};

use crate::LogFault;
use crate::calls::{sync, write};
use disk_model::Disk;
use log_frame::{Frame, OPEN_GATE};

/// Writes the frames at the file's end, each with a closed gate behind it.
fn write_frames<D: Disk>(disk: &mut D, file: u32, at: u64, frames: &[Frame]) -> Result<(), LogFault>
    requires at { D.tells → at ≡ length (D.reads disk.old file) }
    requires small { at + length (closed_frames frames.now) ≤ file_limit }
    ensures written { OnOk result (D.tells
        → Extended file (closed_frames frames.now) (D.reads disk.old) (D.reads disk.new)) }
    ensures moves { D.tells
        → Moves D.reads D.call_number D.images D.images_since disk.old disk.new
        (KeepsFront file at) }
    ensures fault { IfErr result (λ e. e ≡ LogFault.Device) }
    ensures device { OnErr result (Rose (D.fault_count disk.old) (D.fault_count disk.new)) }
    ensures later { D.fault_count disk.old ≤ D.fault_count disk.new }
    ensures name { D.name disk.new ≡ D.name disk.old }
{
    let mut end = at;
    for frame in frames {
        let gated = frame.gated();
        write(disk, file, end, gated)?;
        end += gated.len() as u64;
    }
    Ok(())
}

/// Opens the gates behind the frames that stand from `at` on.
fn open_gates<D: Disk>(disk: &mut D, file: u32, at: u64, frames: &[Frame]) -> Result<(), LogFault>
    requires closed { D.tells → HasClosed at frames.now (D.reads disk.old file) }
    requires inside { D.tells → at ≤ length (D.reads disk.old file) }
    requires small { at + length (closed_frames frames.now) ≤ file_limit }
    ensures opened { OnOk result (D.tells
        → OpensGates file at frames.now (D.reads disk.old) (D.reads disk.new)) }
    ensures moves { D.tells
        → Moves D.reads D.call_number D.images D.images_since disk.old disk.new
        (KeepsFront file at) }
    ensures fault { IfErr result (λ e. e ≡ LogFault.Device) }
    ensures device { OnErr result (Rose (D.fault_count disk.old) (D.fault_count disk.new)) }
    ensures later { D.fault_count disk.old ≤ D.fault_count disk.new }
    ensures name { D.name disk.new ≡ D.name disk.old }
{
    let mut end = at;
    for frame in frames {
        let gate = end + frame.bytes().len() as u64;
        write(disk, file, gate, &[OPEN_GATE])?;
        end = gate + 1;
    }
    Ok(())
}

/// Writes the frames at the file's end, with all gates open but the last, and syncs.
fn stage<D: Disk>(disk: &mut D, file: u32, at: u64, frames: &[Frame]) -> Result<(), LogFault>
    requires some { 1 ≤ length frames.now }
    requires at { D.tells → at ≡ length (D.reads disk.old file) }
    requires small { at + length (closed_frames frames.now) ≤ file_limit }
    ensures written { OnOk result (D.tells
        → Extended file (staged frames.now) (D.reads disk.old) (D.reads disk.new)) }
    ensures durable { OnOk result (D.tells → Only file (D.reads disk.new) (D.images disk.new)) }
    ensures moves { D.tells
        → Moves D.reads D.call_number D.images D.images_since disk.old disk.new
        (KeepsFront file at) }
    ensures fault { IfErr result (λ e. e ≡ LogFault.Device) }
    ensures device { OnErr result (Rose (D.fault_count disk.old) (D.fault_count disk.new)) }
    ensures later { D.fault_count disk.old ≤ D.fault_count disk.new }
    ensures name { D.name disk.new ≡ D.name disk.old }
{
    write_frames(disk, file, at, frames)?;
    let (inner, _) = frames.split_at(frames.len() - 1);
    open_gates(disk, file, at, inner)?;
    sync(disk, file)
}

/// Puts the frames behind the gate at the file's end, and opens it.
pub(crate) fn put_behind<D: Disk>(
    disk: &mut D,
    file: u32,
    gate: u64,
    frames: &[Frame],
) -> Result<(), LogFault>
    requires some { 1 ≤ length frames.now }
    requires gate { D.tells → length (D.reads disk.old file) ≡ gate + 1 }
    requires durable { D.tells → Only file (D.reads disk.old) (D.images disk.old) }
    requires small { gate + 1 + length (closed_frames frames.now) ≤ file_limit }
    ensures opened { OnOk result (D.tells
        → Opened file gate (staged frames.now) (D.reads disk.old) (D.reads disk.new)) }
    ensures durable { OnOk result (D.tells → Only file (D.reads disk.new) (D.images disk.new)) }
    ensures moves { D.tells
        → Moves D.reads D.call_number D.images D.images_since disk.old disk.new
        (Stages file gate (staged frames.now)) }
    ensures fault { IfErr result (λ e. e ≡ LogFault.Device) }
    ensures device { OnErr result (Rose (D.fault_count disk.old) (D.fault_count disk.new)) }
    ensures later { D.fault_count disk.old ≤ D.fault_count disk.new }
    ensures name { D.name disk.new ≡ D.name disk.old }
{
    stage(disk, file, gate + 1, frames)?;
    // The frames are on the disk. From here on a crash leaves all of them or none.
    write(disk, file, gate, &[OPEN_GATE])?;
    sync(disk, file)
}
