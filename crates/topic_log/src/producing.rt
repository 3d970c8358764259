// One record appended to a file.
ghost use Rattle.std.specs.Prelude.{◌≡◌, ◌≢◌, ◌≤◌, ℕ, List, IfOk, IfErr, OnOk};
ghost use Rattle.samza_model.specs.declared.messages.Record.{Record as RecordValue};
ghost use Rattle.samza_model.specs.Counters.{Rose};
ghost use Rattle.samza_model.specs.Limits.{IsWithinLimits};
ghost use Rattle.samza_model.specs.Logs.{HasNoLog};
ghost use Rattle.disk_model.specs.Images.{SameElsewhere, Only, LeavesOnly};
ghost use Rattle.topic_log.specs.declared.logs.Log.{Log as LogValue};
ghost use Rattle.topic_log.specs.Damage.{IsDamagedAt};
ghost use Rattle.topic_log.specs.Opened.{file_of, IsOpen, KeepsFrames};
ghost use Rattle.topic_log.specs.Producing.{IsProduced, Produces, IsFull};

use crate::{Log, LogFault};
use disk_model::Disk;
use log_frame::encode;
use samza_model::Record;
use std::alloc::Global;
use std::slice;

/// Opens the log of a file, appends one record in a frame of its own, and answers its offset, which is the number of records
/// before it. A key has at most 1,024 bytes, and a value at most 65,536.
///
/// `Damaged` comes where the file is no log, with the byte at which reading stopped, and `Limit` where the file would pass
/// 2^40 bytes. `Device` comes only where the disk's count of faults rose.
pub fn produce_one<D: Disk>(
    alloc: Global,
    disk: &mut D,
    file: u32,
    body: &Record,
) -> Result<u64, LogFault>
    requires { IsWithinLimits body.now }

    ensures produced { IfOk result (λ n. D.tells
        → IsProduced (D.reads disk.old file) (D.reads disk.new file) body.now n) }
    // After Ok every image of the file is as it reads.
    ensures durable { OnOk result (D.tells → Only file (D.reads disk.new) (D.images disk.new)) }
    ensures elsewhere { OnOk result (D.tells
        → SameElsewhere file (D.reads disk.old) (D.reads disk.new)) }

    // A crash at any moment leaves the frames that the image had, or those followed by the record. A file that is no log is as
    // before.
    ensures any_moment { D.tells
        → LeavesOnly D.call_number D.images D.images_since disk.old disk.new
        (Produces file body.now) }
    ensures others { D.tells → (log : LogValue) (frames : List (List RecordValue))
        → file_of log ≢ file → IsOpen (D.reads disk.old) (D.images disk.old) log frames
        → IsOpen (D.reads disk.new) (D.images disk.new) log frames }

    // After a refusal, but for `Device`, the file has the frames that it had, in what a read gives and in every image since.
    ensures refused { IfErr result (λ e. e ≢ LogFault.Device → D.tells
        → KeepsFrames file (D.reads disk.old) (D.reads disk.new)) }
    ensures refused_images { IfErr result (λ e. e ≢ LogFault.Device → D.tells
        → LeavesOnly D.call_number D.images D.images_since disk.old disk.new (KeepsFrames file)) }
    ensures untouched { IfErr result (λ e. (at : ℕ) → e ≡ LogFault.Damaged at → D.tells
        → D.reads disk.new ≡ D.reads disk.old) }
    ensures damaged { IfErr result (λ e. (at : ℕ) → e ≡ LogFault.Damaged at → D.tells
        → IsDamagedAt (D.reads disk.old file) at × HasNoLog (D.reads disk.old file)) }
    ensures limit { IfErr result (λ e. e ≡ LogFault.Limit → D.tells
        → IsFull (D.reads disk.old file) body.now) }
    ensures room { OnOk result (D.tells → IsFull (D.reads disk.old file) body.now → ⊥) }
    ensures device { IfErr result (λ e. e ≡ LogFault.Device
        → Rose (D.fault_count disk.old) (D.fault_count disk.new)) }
    ensures never { IfErr result (λ e. e ≢ LogFault.Broken) }
    ensures later { D.fault_count disk.old ≤ D.fault_count disk.new }
    ensures name { D.name disk.new ≡ D.name disk.old }
{
    let mut log = match Log::open_log(alloc, disk, file) {
        Ok(log) => log,
        Err(fault) => return Err(fault),
    };
    let frame = match encode(alloc, slice::from_ref(body)) {
        Ok(frame) => frame,
        Err(_) => return Err(LogFault::NoMemory),
    };
    let offset = log.len();
    match log.append(disk, &frame) {
        Ok(_) => Ok(offset),
        Err(fault) => Err(fault),
    }
}
