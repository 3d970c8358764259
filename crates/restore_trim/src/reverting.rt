// A store's changelog, whose last records, which the checkpoint doesn't count, are taken back.
ghost use Rattle.std.specs.Prelude.{◌≡◌, ◌≢◌, ◌<◌, ◌≤◌, false, List, length, IfOk, IfErr, OnOk};
ghost use Rattle.std.specs.List.{AllByRecursion};
ghost use Rattle.samza_model.specs.declared.messages.Record.{Record};
ghost use Rattle.samza_model.specs.Counters.{Rose};
ghost use Rattle.samza_model.specs.Files.{changelog_file};
ghost use Rattle.samza_model.specs.Limits.{frame_batch, key_limit};
ghost use Rattle.disk_model.specs.Images.{SameElsewhere, LeavesOnly};
ghost use Rattle.kv_store.specs.Tracked.{AreWithinLimits, records_of};
ghost use Rattle.log_frame.specs.Cuts.{IsCut};
ghost use Rattle.log_frame.specs.Frame.{AreFrames};
ghost use Rattle.topic_log.specs.declared.logs.Log.{Log as LogValue};
ghost use Rattle.topic_log.specs.Opened.{file_of, count_of, is_broken, IsOpen, KeepsFrames};
ghost use Rattle.restore_trim.specs.Crashes.{RevertsFile};
ghost use Rattle.restore_trim.specs.Refused.{IsMiscount, StoreOpens, TellsStore, WhyNoStore};
ghost use Rattle.restore_trim.specs.Standing.{IsOpenAt, StandsAt, HoldsStore};

use crate::OpenFault;
use crate::opening::opening;
use changelog::{Changelog, frames_of, revert};
use disk_model::Disk;
use kv_store::Table;
use log_frame::Frame;
use samza_model::{Bin, FRAME_BATCH, NoMemory};
use std::alloc::Global;

/// How many records a store's changelog has to have, against how many it has.
fn check_count(store: u32, count: u64, held: u64) -> Result<(), OpenFault>
    ensures enough { OnOk result (count ≤ held) }
    ensures miscount { IfErr result (λ e. IsMiscount store count held e) }
{
    if held < count {
        return Err(OpenFault::Ahead {
            input: None,
            store: Some(store),
            wanted: count,
            held,
        });
    }
    Ok(())
}

/// A store's changelog, which has as many records as are counted or more.
fn open_changes<D: Disk>(
    alloc: Global,
    disk: &mut D,
    store: u32,
    count: u64,
) -> Result<Changelog, OpenFault>
    requires { store < 15 }
    ensures stands { IfOk result (λ log. D.tells
        → StandsAt (D.reads disk.old) (D.reads disk.new) (D.images disk.new) (changelog_file store)
        log) }
    ensures file { IfOk result (λ log. file_of log ≡ changelog_file store) }
    ensures sound { IfOk result (λ log. is_broken log ≡ false) }
    ensures enough { IfOk result (λ log. count ≤ count_of log) }
    ensures elsewhere { OnOk result (D.tells
        → SameElsewhere (changelog_file store) (D.reads disk.old) (D.reads disk.new)) }
    ensures others { D.tells → (log : LogValue) (frames : List (List Record))
        → file_of log ≢ changelog_file store
        → IsOpen (D.reads disk.old) (D.images disk.old) log frames
        → IsOpen (D.reads disk.new) (D.images disk.new) log frames }
    ensures why { IfErr result (λ e. D.tells → WhyNoStore (D.reads disk.old) store count e) }
    ensures told { IfErr result (TellsStore store) }
    ensures any_moment { D.tells
        → LeavesOnly D.call_number D.images D.images_since disk.old disk.new
        (KeepsFrames (changelog_file store)) }
    ensures refused { IfErr result (λ e. e ≢ OpenFault.Device → D.tells
        → SameElsewhere (changelog_file store) (D.reads disk.old) (D.reads disk.new)) }
    ensures device { IfErr result (λ e. e ≡ OpenFault.Device
        → Rose (D.fault_count disk.old) (D.fault_count disk.new)) }
    ensures later { D.fault_count disk.old ≤ D.fault_count disk.new }
    ensures name { D.name disk.new ≡ D.name disk.old }
{
    let file = 1 + store;
    let log = match Changelog::open_changelog(alloc, disk, file) {
        Ok(log) => log,
        Err(fault) => return Err(opening(file, fault)),
    };
    match check_count(store, count, log.len()) {
        Ok(()) => Ok(log),
        Err(fault) => Err(fault),
    }
}

/// The frames that take a changelog's last records back, of which these are the keys.
fn revert_frames(alloc: Global, table: &Table, touched: &[Bin]) -> Result<Vec<Frame>, NoMemory>
    requires limits { AreWithinLimits table.now }
    requires short { AllByRecursion (λ key. length key ≤ key_limit) touched.now }
    ensures { IfOk result (λ frames. (lists : List (List Record))
        × IsCut frame_batch (records_of table.now touched.now) lists
        × AreFrames frames.items lists) }
{
    let records = revert(alloc, table, touched)?;
    frames_of(alloc, &records, FRAME_BATCH)
}

/// The content that the counted records of a changelog make. Where it has more records, what takes them back is appended.
fn take_back<D: Disk>(
    alloc: Global,
    disk: &mut D,
    log: &mut Changelog,
    store: u32,
    count: u64,
) -> Result<Table, OpenFault>
    requires low { store < 15 }
    requires stands { D.tells → (frames : List (List Record))
        × IsOpenAt (D.reads disk.old) (D.images disk.old) (changelog_file store) log.old frames }
    requires file { file_of log.old ≡ changelog_file store }
    requires sound { is_broken log.old ≡ false }
    requires enough { count ≤ count_of log.old }
    ensures store { IfOk result (λ table. D.tells
        → HoldsStore (D.reads disk.old) (D.reads disk.new) (D.images disk.new)
        (changelog_file store) count log.new table) }
    ensures opens { OnOk result (D.tells → StoreOpens (D.reads disk.old) store count) }
    ensures limits { IfOk result (λ table. AreWithinLimits table) }
    ensures sound { OnOk result (is_broken log.new ≡ false) }
    ensures elsewhere { OnOk result (D.tells
        → SameElsewhere (changelog_file store) (D.reads disk.old) (D.reads disk.new)) }
    ensures others { D.tells → (log : LogValue) (frames : List (List Record))
        → file_of log ≢ changelog_file store
        → IsOpen (D.reads disk.old) (D.images disk.old) log frames
        → IsOpen (D.reads disk.new) (D.images disk.new) log frames }
    ensures why { IfErr result (λ e. D.tells → WhyNoStore (D.reads disk.old) store count e) }
    ensures told { IfErr result (TellsStore store) }
    ensures any_moment { D.tells
        → LeavesOnly D.call_number D.images D.images_since disk.old disk.new
        (RevertsFile (changelog_file store) count) }
    ensures refused { IfErr result (λ e. e ≢ OpenFault.Device → D.tells
        → SameElsewhere (changelog_file store) (D.reads disk.old) (D.reads disk.new)) }
    ensures device { IfErr result (λ e. e ≡ OpenFault.Device
        → Rose (D.fault_count disk.old) (D.fault_count disk.new)) }
    ensures later { D.fault_count disk.old ≤ D.fault_count disk.new }
    ensures name { D.name disk.new ≡ D.name disk.old }
{
    let file = 1 + store;
    let (table, touched) = match log.fold(alloc, disk, count) {
        Ok(folded) => folded,
        Err(fault) => return Err(opening(file, fault)),
    };
    if log.len() == count {
        return Ok(table);
    }
    let frames = match revert_frames(alloc, &table, &touched) {
        Ok(frames) => frames,
        Err(_) => return Err(OpenFault::NoMemory),
    };
    match log.write(disk, &frames) {
        Ok(_) => Ok(table),
        Err(fault) => Err(opening(file, fault)),
    }
}

/// A store's changelog, and the content at the checkpoint, which all its records make again.
pub(crate) fn open_store<D: Disk>(
    alloc: Global,
    disk: &mut D,
    store: u32,
    count: u64,
) -> Result<(Changelog, Table), OpenFault>
    requires { store < 15 }
    ensures store { IfOk result (λ r. D.tells
        → HoldsStore (D.reads disk.old) (D.reads disk.new) (D.images disk.new)
        (changelog_file store) count r.0 r.1) }
    ensures opens { OnOk result (D.tells → StoreOpens (D.reads disk.old) store count) }
    ensures limits { IfOk result (λ r. AreWithinLimits r.1) }
    ensures sound { IfOk result (λ r. is_broken r.0 ≡ false) }
    ensures elsewhere { OnOk result (D.tells
        → SameElsewhere (changelog_file store) (D.reads disk.old) (D.reads disk.new)) }
    ensures others { D.tells → (log : LogValue) (frames : List (List Record))
        → file_of log ≢ changelog_file store
        → IsOpen (D.reads disk.old) (D.images disk.old) log frames
        → IsOpen (D.reads disk.new) (D.images disk.new) log frames }
    ensures why { IfErr result (λ e. D.tells → WhyNoStore (D.reads disk.old) store count e) }
    ensures told { IfErr result (TellsStore store) }
    ensures any_moment { D.tells
        → LeavesOnly D.call_number D.images D.images_since disk.old disk.new
        (RevertsFile (changelog_file store) count) }
    ensures refused { IfErr result (λ e. e ≢ OpenFault.Device → D.tells
        → SameElsewhere (changelog_file store) (D.reads disk.old) (D.reads disk.new)) }
    ensures device { IfErr result (λ e. e ≡ OpenFault.Device
        → Rose (D.fault_count disk.old) (D.fault_count disk.new)) }
    ensures later { D.fault_count disk.old ≤ D.fault_count disk.new }
    ensures name { D.name disk.new ≡ D.name disk.old }
{
    let mut log = match open_changes(alloc, disk, store, count) {
        Ok(log) => log,
        Err(fault) => return Err(fault),
    };
    match take_back(alloc, disk, &mut log, store, count) {
        Ok(table) => Ok((log, table)),
        Err(fault) => Err(fault),
    }
}
