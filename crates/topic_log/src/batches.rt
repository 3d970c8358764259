// The batches of a log's file.
ghost use Rattle.std.specs.Prelude.{◌≡◌, ◌≢◌, ◌+◌, ◌^◌, ◌<◌, ◌≤◌, ◌⊎◌, ◌↔◌, ◌++◌, ◌∷◌, [], ℕ, true, false, List, Ok, None, length, IfOk, IfErr, IfSome, MatchOption, OnOk, OnErr};
ghost use Rattle.samza_model.specs.declared.messages.Record.{Record};
ghost use Rattle.samza_model.specs.Counters.{Rose};
ghost use Rattle.samza_model.specs.Frames.{frame_bytes};
ghost use Rattle.std.specs.List.{AllByRecursion};
ghost use Rattle.samza_model.specs.Limits.{IsWithinLimits, IsFrameable};
ghost use Rattle.log_frame.specs.Reading.{frame_at};
ghost use Rattle.topic_log.specs.Faults.{IsWalkFault};
ghost use Rattle.topic_log.specs.Moves.{Rests};
ghost use Rattle.topic_log.specs.Walks.{Shows, seen};

use crate::windows::Window;
use crate::{Log, LogFault, Place};
use disk_model::Disk;
use log_frame::{Decoded, FrameFault, decode};
use samza_model::{Items, Record};
use std::alloc::Global;

/// The frame that begins the bytes, where these begin at `at` of the file.
fn frame_in(alloc: Global, at: u64, bytes: &[u8]) -> Result<Decoded, LogFault>
    requires { at + length bytes.now < 2 ^ 62 }
    ensures within { IfOk result (λ d. d.used ≤ length bytes.now) }
    ensures limits { IfOk result (λ d. AllByRecursion IsWithinLimits d.records) }
    ensures frame { (records : List Record) (used : ℕ) → frame_at bytes.now ≡ Ok (records, used)
        → IfOk result (λ d. (d.records ≡ records) × (d.used ≡ used)) }
    ensures whole { (records : List Record) (used : ℕ) → frame_at bytes.now ≡ Ok (records, used)
        → IfErr result (λ e. e ≡ LogFault.NoMemory) }
    ensures fault { IfErr result IsWalkFault }
    ensures memory { IfErr result (λ e. e ≢ LogFault.Device) }
{
    match decode(alloc, bytes) {
        Ok(decoded) => Ok(decoded),
        Err(FrameFault::Bad { at: bad }) => Err(LogFault::Damaged {
            at: at.saturating_add(bad),
        }),
        Err(FrameFault::NoMemory) => Err(LogFault::NoMemory),
    }
}

/// Reads the frame that begins at `at`, and is within what the window is of.
pub(crate) fn read_frame<D: Disk>(
    alloc: Global,
    disk: &mut D,
    window: &mut Window,
    at: u64,
) -> Result<Decoded, LogFault>
    requires at { at ≤ window.old.size }
    requires small { window.old.size < 2 ^ 62 }
    requires size { D.tells → window.old.size ≤ length (D.reads disk.old window.old.file) }
    requires shows { D.tells → Shows window.old (D.reads disk.old window.old.file) }
    ensures within { IfOk result (λ d. at + d.used ≤ window.old.size) }
    ensures limits { IfOk result (λ d. AllByRecursion IsWithinLimits d.records) }
    ensures frame { D.tells → (records : List Record) (rest : List ℕ) → IsFrameable records
        → seen window.old.size at (D.reads disk.old window.old.file) ≡ frame_bytes records ++ rest
        → IfOk result (λ d. (d.records ≡ records) × (d.used ≡ length (frame_bytes records))) }
    ensures whole { D.tells → (records : List Record) (rest : List ℕ) → IsFrameable records
        → seen window.old.size at (D.reads disk.old window.old.file) ≡ frame_bytes records ++ rest
        → IfErr result (λ e. (place : ℕ) → e ≢ LogFault.Damaged place) }
    ensures file { window.new.file ≡ window.old.file }
    ensures size { window.new.size ≡ window.old.size }
    ensures shows { OnOk result (D.tells
        → Shows window.new (D.reads disk.old window.old.file)) }
    ensures rests { D.tells
        → Rests D.reads D.call_number D.images D.images_since disk.old disk.new }
    ensures fault { IfErr result IsWalkFault }
    ensures device { IfErr result (λ e. e ≡ LogFault.Device
        → Rose (D.fault_count disk.old) (D.fault_count disk.new)) }
    ensures later { D.fault_count disk.old ≤ D.fault_count disk.new }
    ensures name { D.name disk.new ≡ D.name disk.old }
{
    let len = match window.size_at(disk, at) {
        Ok(len) => len,
        Err(fault) => return Err(fault),
    };
    window.load(disk, at, len)?;
    frame_in(alloc, at, window.view(at, len))
}

/// The batches of a log, read one after another from the first one on. A piece of the file is read at once, so that those
/// that lie in one piece take one call of the disk.
#[derive(Debug, Drop)]
pub struct Batches {
    pub(crate) place: Place,
    pub(crate) window: Window,
}

impl Batches {
    ghost use Rattle.topic_log.specs.declared.logs.Log.{Log};
    ghost use Rattle.topic_log.specs.Batches.{byte_of, AreOf, HasBatches};
    ghost use Rattle.topic_log.specs.Opened.{file_of, size_of, is_broken, IsOpen, KeepsExtent};

    /// The records of the next batch; `None` at the end. The log is the one that gave these batches, to which nothing was
    /// appended since. After `Device` it is broken. After an error these batches are not read on: take new ones.
    pub fn next<D: Disk>(
        &mut self,
        alloc: Global,
        disk: &mut D,
        log: &mut Log,
    ) -> Result<Option<Items<Record>>, LogFault>
        requires of { AreOf log.old self.old }
        requires place { D.tells → is_broken log.old ≡ false → (frames : List (List Record))
            × ((before : List (List Record))
            × HasBatches (D.reads disk.old) (D.images disk.old) log.old self.old frames before) }

        ensures batch { IfOk result (λ o. D.tells → (frames before : List (List Record))
            → HasBatches (D.reads disk.old) (D.images disk.old) log.old self.old frames before
            → MatchOption o (before ≡ frames) (λ records.
            HasBatches (D.reads disk.new) (D.images disk.new) log.new self.new frames
            (before ++ records ∷ []))) }
        ensures of { AreOf log.new self.new }

        // The place behind is further on, and within the file; and the records are within the limits. Every disk gives that.
        ensures forward { IfOk result (λ o. IfSome o (λ _. (byte_of self.old < byte_of self.new)
            × (byte_of self.new < size_of log.old))) }
        ensures limits { IfOk result (λ o. IfSome o (λ records. AllByRecursion IsWithinLimits records)) }
        ensures end { result ≡ Ok None → size_of log.old ≤ byte_of self.old + 1 }

        // Nothing changes on the disk, and the logs stay open.
        ensures rests { D.tells
            → Rests D.reads D.call_number D.images D.images_since disk.old disk.new }
        ensures reads { D.tells → D.reads disk.new ≡ D.reads disk.old }
        ensures others { D.tells → (l : Log) (frames : List (List Record))
            → IsOpen (D.reads disk.old) (D.images disk.old) l frames
            → IsOpen (D.reads disk.new) (D.images disk.new) l frames }

        ensures ok { OnOk result ((is_broken log.old ≡ false) × (log.new ≡ log.old)) }
        ensures broken { IfErr result (λ e. (e ≡ LogFault.Broken) ↔ (is_broken log.old ≡ true)) }
        ensures sane { IfErr result (λ e. D.tells → (at : ℕ) → e ≢ LogFault.Damaged at) }
        ensures device { IfErr result (λ e. e ≡ LogFault.Device
            → Rose (D.fault_count disk.old) (D.fault_count disk.new)) }
        ensures never { IfErr result (λ e. e ≢ LogFault.Limit) }

        ensures breaks { IfErr result (λ e. (is_broken log.new ≡ true)
            ↔ ((e ≡ LogFault.Broken) ⊎ (e ≡ LogFault.Device))) }
        ensures kept { IfErr result (λ e. e ≢ LogFault.Device → log.new ≡ log.old) }
        ensures extent { OnErr result (KeepsExtent log.old log.new) }
        ensures file { file_of log.new ≡ file_of log.old }
        ensures later { D.fault_count disk.old ≤ D.fault_count disk.new }
        ensures name { D.name disk.new ≡ D.name disk.old }
    {
        match log.batch_in(alloc, disk, &mut self.window, self.place) {
            Ok(Some((records, place))) => {
                self.place = place;
                Ok(Some(records))
            }
            Ok(None) => Ok(None),
            Err(fault) => Err(fault),
        }
    }
}
