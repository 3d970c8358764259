// The opening of a task's files, one at a time.
ghost use Rattle.std.specs.Prelude.{◌≡◌, ◌≢◌, ◌≤◌, true, false, List, Some, IfOk, IfErr, OnOk};
ghost use Rattle.samza_model.specs.declared.messages.Record.{Record};
ghost use Rattle.samza_model.specs.declared.checkpoints.Checkpoint.{Checkpoint as CheckpointValue};
ghost use Rattle.samza_model.specs.Counters.{Rose};
ghost use Rattle.samza_model.specs.Files.{checkpoint_file};
ghost use Rattle.samza_model.specs.Restored.{IsNamed, id_of};
ghost use Rattle.disk_model.specs.Images.{SameElsewhere, LeavesOnly};
ghost use Rattle.topic_log.specs.declared.logs.Log.{Log as LogValue};
ghost use Rattle.topic_log.specs.Opened.{file_of, count_of, is_broken, IsOpen, KeepsFrames};
ghost use Rattle.restore_trim.specs.Refused.{IsOpeningOf, TellsFile, TellsMark, WhyNoFile, WhyNoMark};
ghost use Rattle.restore_trim.specs.Standing.{StandsAt, HoldsMark};

use crate::OpenFault;
use crate::naming::is_named;
use checkpoint_log::last;
use disk_model::Disk;
use samza_model::{Checkpoint, NoMemory, Setup};
use std::alloc::Global;
use topic_log::{Log, LogFault};

/// The fault of a log that isn't broken, as the opening's.
pub(crate) fn opening(file: u32, fault: LogFault) -> OpenFault
    requires { fault ≢ LogFault.Broken }
    ensures { IsOpeningOf file fault result }
{
    match fault {
        LogFault::Device => OpenFault::Device,
        LogFault::Damaged { at } => OpenFault::Damaged {
            input: None,
            file,
            at,
        },
        LogFault::Limit => OpenFault::Limit,
        LogFault::NoMemory => OpenFault::NoMemory,
        LogFault::Broken => unreachable!(),
    }
}

/// The log of a file of the task.
pub(crate) fn open_file<D: Disk>(alloc: Global, disk: &mut D, file: u32) -> Result<Log, OpenFault>
    ensures stands { IfOk result (λ log. D.tells
        → StandsAt (D.reads disk.old) (D.reads disk.new) (D.images disk.new) file log) }
    ensures sound { IfOk result (λ log. is_broken log ≡ false) }
    ensures elsewhere { OnOk result (D.tells
        → SameElsewhere file (D.reads disk.old) (D.reads disk.new)) }
    ensures others { D.tells → (log : LogValue) (frames : List (List Record)) → file_of log ≢ file
        → IsOpen (D.reads disk.old) (D.images disk.old) log frames
        → IsOpen (D.reads disk.new) (D.images disk.new) log frames }
    ensures why { IfErr result (λ e. D.tells → WhyNoFile (D.reads disk.old) file e) }
    ensures told { IfErr result (TellsFile file) }
    // A crash at any moment leaves the file the frames that it had, and the other files as they were.
    ensures any_moment { D.tells
        → LeavesOnly D.call_number D.images D.images_since disk.old disk.new (KeepsFrames file) }
    ensures refused { IfErr result (λ e. e ≢ OpenFault.Device → D.tells
        → D.reads disk.new ≡ D.reads disk.old) }
    ensures device { IfErr result (λ e. e ≡ OpenFault.Device
        → Rose (D.fault_count disk.old) (D.fault_count disk.new)) }
    ensures later { D.fault_count disk.old ≤ D.fault_count disk.new }
    ensures name { D.name disk.new ≡ D.name disk.old }
{
    match Log::open_log(alloc, disk, file) {
        Ok(log) => Ok(log),
        Err(fault) => Err(opening(file, fault)),
    }
}

/// Whether the checkpoint is the setup's.
fn named(alloc: Global, setup: &Setup, mark: &Option<Checkpoint>) -> Result<bool, NoMemory>
    ensures named { result ≡ Ok true → (k : CheckpointValue) → mark.now ≡ Some k
        → IsNamed setup.now k }
    ensures other { result ≡ Ok false → (k : CheckpointValue) × (mark.now ≡ Some k)
        × (IsNamed setup.now k → ⊥) }
{
    match mark {
        Some(checkpoint) => is_named(alloc, setup, checkpoint),
        None => Ok(true),
    }
}

/// The checkpoint file's log, and the last checkpoint.
pub(crate) fn open_marks<D: Disk>(
    alloc: Global,
    disk: &mut D,
    setup: &Setup,
) -> Result<(Log, Option<Checkpoint>), OpenFault>
    ensures mark { IfOk result (λ r. D.tells
        → HoldsMark setup.now (D.reads disk.old) (D.reads disk.new) (D.images disk.new) r.0 r.1) }
    ensures elsewhere { OnOk result (D.tells
        → SameElsewhere checkpoint_file (D.reads disk.old) (D.reads disk.new)) }
    ensures sound { IfOk result (λ r. is_broken r.0 ≡ false) }
    // On every disk the checkpoint's number is the number of records of its file.
    ensures counted { IfOk result (λ r. count_of r.0 ≡ id_of r.1) }
    ensures named { IfOk result (λ r. (k : CheckpointValue) → r.1 ≡ Some k → IsNamed setup.now k) }
    ensures why { IfErr result (λ e. D.tells → WhyNoMark setup.now (D.reads disk.old) e) }
    ensures told { IfErr result TellsMark }
    ensures any_moment { D.tells
        → LeavesOnly D.call_number D.images D.images_since disk.old disk.new
        (KeepsFrames checkpoint_file) }
    ensures refused { IfErr result (λ e. e ≢ OpenFault.Device → D.tells
        → SameElsewhere checkpoint_file (D.reads disk.old) (D.reads disk.new)) }
    ensures device { IfErr result (λ e. e ≡ OpenFault.Device
        → Rose (D.fault_count disk.old) (D.fault_count disk.new)) }
    ensures later { D.fault_count disk.old ≤ D.fault_count disk.new }
    ensures name { D.name disk.new ≡ D.name disk.old }
{
    let mut log = match open_file(alloc, disk, 0) {
        Ok(log) => log,
        Err(fault) => return Err(fault),
    };
    let mark = match last(alloc, &mut log, disk) {
        Ok(mark) => mark,
        Err(fault) => return Err(opening(0, fault)),
    };
    match named(alloc, setup, &mark) {
        Ok(true) => Ok((log, mark)),
        Ok(false) => Err(OpenFault::Shape),
        Err(_) => Err(OpenFault::NoMemory),
    }
}
