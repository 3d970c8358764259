// The checkpoint with which a log ends.
ghost use Rattle.std.specs.Prelude.{◌≡◌, ◌≢◌, ◌+◌, ◌≤◌, ◌⊎◌, ◌↔◌, ◌∷◌, [], ℕ, true, false, List, IfOk, IfErr, OnErr, OnOk};
ghost use Rattle.samza_model.specs.declared.messages.Record.{Record as RecordValue};
ghost use Rattle.samza_model.specs.declared.checkpoints.Checkpoint.{Checkpoint as CheckpointValue};
ghost use Rattle.samza_model.specs.Counters.{Rose};
ghost use Rattle.samza_model.specs.Restored.{id_of, EndsAs};
ghost use Rattle.topic_log.specs.declared.logs.Log.{Log as LogValue};
ghost use Rattle.topic_log.specs.Moves.{Rests};
ghost use Rattle.topic_log.specs.Opened.{file_of, count_of, size_of, is_broken, HasExtent, KeepsExtent, IsOpen};
ghost use Rattle.checkpoint_log.specs.Ends.{IsAlone, IsEnd, IsBadEnd};

use crate::{CheckpointFault, decode_checkpoint};
use disk_model::Disk;
use samza_model::{Checkpoint, Record};
use std::alloc::Global;
use topic_log::{Log, LogFault, Place};

/// The checkpoint of a frame that has its record alone, and whose number is `count`.
fn checkpoint_in(
    alloc: Global,
    records: &[Record],
    count: u64,
) -> Result<Checkpoint, CheckpointFault>
    ensures found { IfOk result (λ k. IsAlone records.now count k) }
    ensures bad { IfErr result (λ e. e ≡ CheckpointFault.Bad → (k : CheckpointValue)
        → IsAlone records.now count k → ⊥) }
{
    let [r] = records else {
        return Err(CheckpointFault::Bad);
    };
    let k = match decode_checkpoint(alloc, r) {
        Ok(k) => k,
        Err(fault) => return Err(fault),
    };
    if k.id == count {
        Ok(k)
    } else {
        Err(CheckpointFault::Bad)
    }
}

/// The place before the log's last frame, or before the first where it has none.
fn end_of(log: &Log) -> Place
    ensures end { (frames : List (List RecordValue)) → HasExtent log.now frames
        → IsEnd frames result }
    ensures empty { size_of log.now ≤ result.byte + 1 → count_of log.now ≡ 0 }
{
    match log.last() {
        Some(place) => place,
        None => log.start(),
    }
}

/// The checkpoint of the log's last frame, or `None` where the log has no frame.
///
/// `Broken` comes exactly where an earlier call on the log answered `Device`, before any other answer. `Damaged` comes
/// where the last frame is not the record of one checkpoint alone, whose number is the log's number of records; it names
/// the frame's first byte. After `Device` the log is broken.
pub fn last<D: Disk>(
    alloc: Global,
    log: &mut Log,
    disk: &mut D,
) -> Result<Option<Checkpoint>, LogFault>
    requires opened { D.tells → is_broken log.old ≡ false → (frames : List (List RecordValue))
        × IsOpen (D.reads disk.old) (D.images disk.old) log.old frames }

    ensures last { IfOk result (λ m. D.tells → (frames : List (List RecordValue))
        → IsOpen (D.reads disk.old) (D.images disk.old) log.old frames → EndsAs frames m) }
    // On every disk the checkpoint's number is the log's number of records, and none is answered only where it has none.
    ensures counted { IfOk result (λ m. id_of m ≡ count_of log.old) }
    ensures damaged { IfErr result (λ e. (at : ℕ) → e ≡ LogFault.Damaged at → D.tells
        → (frames : List (List RecordValue))
        → IsOpen (D.reads disk.old) (D.images disk.old) log.old frames → IsBadEnd frames at) }

    ensures ok { OnOk result ((is_broken log.old ≡ false) × (log.new ≡ log.old)) }
    ensures broken { IfErr result (λ e. (e ≡ LogFault.Broken) ↔ (is_broken log.old ≡ true)) }
    ensures breaks { IfErr result (λ e. (is_broken log.new ≡ true)
        ↔ ((e ≡ LogFault.Broken) ⊎ (e ≡ LogFault.Device))) }
    ensures kept { IfErr result (λ e. e ≢ LogFault.Device → log.new ≡ log.old) }
    ensures extent { OnErr result (KeepsExtent log.old log.new) }
    ensures file { file_of log.new ≡ file_of log.old }
    // Nothing but reads was called: at each moment the images are those before.
    ensures rests { D.tells
        → Rests D.reads D.call_number D.images D.images_since disk.old disk.new }
    ensures reads { D.tells → D.reads disk.new ≡ D.reads disk.old }
    ensures others { D.tells → (l : LogValue) (frames : List (List RecordValue))
        → IsOpen (D.reads disk.old) (D.images disk.old) l frames
        → IsOpen (D.reads disk.new) (D.images disk.new) l frames }

    ensures never_limit { IfErr result (λ e. e ≢ LogFault.Limit) }
    ensures device { IfErr result (λ e. e ≡ LogFault.Device
        → Rose (D.fault_count disk.old) (D.fault_count disk.new)) }
    ensures later { D.fault_count disk.old ≤ D.fault_count disk.new }
    ensures name { D.name disk.new ≡ D.name disk.old }
{
    let place = end_of(log);
    let found = match log.batch(alloc, disk, place) {
        Ok(found) => found,
        Err(fault) => return Err(fault),
    };
    let (records, _) = match found {
        Some(batch) => batch,
        None => return Ok(None),
    };
    let at = place.byte.saturating_add(1);
    match checkpoint_in(alloc, records.as_slice(), log.len()) {
        Ok(k) => Ok(Some(k)),
        Err(CheckpointFault::Bad) => Err(LogFault::Damaged { at }),
        Err(CheckpointFault::NoMemory) => Err(LogFault::NoMemory),
    }
}
