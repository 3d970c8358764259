// A task's files, opened and restored to the last checkpoint.
ghost use Rattle.std.specs.Prelude.{◌≡◌, ◌≢◌, ◌<◌, ◌≤◌, ◌^◌, false, All, List, length, Some, IfOk, IfErr, OnOk};
ghost use Rattle.samza_model.specs.declared.messages.Record.{Record};
ghost use Rattle.samza_model.specs.declared.checkpoints.Checkpoint.{Checkpoint as CheckpointValue};
ghost use Rattle.samza_model.specs.Counters.{Rose};
ghost use Rattle.samza_model.specs.Files.{Image, checkpoint_file, changelog_file, output_file};
ghost use Rattle.samza_model.specs.Limits.{output_limit, store_limit};
ghost use Rattle.samza_model.specs.Restored.{Restores, IsNamed, count_at, id_of};
ghost use Rattle.disk_model.specs.Images.{LeavesOnly};
ghost use Rattle.kv_store.specs.Tracked.{AreWithinLimits};
ghost use Rattle.topic_log.specs.declared.logs.Log.{Log as LogValue};
ghost use Rattle.topic_log.specs.Opened.{file_of, count_of, is_broken, IsOpen};
ghost use Rattle.restore_trim.specs.Crashes.{KeepsOutputs, OpeningLeaves, RevertsFiles};
ghost use Rattle.restore_trim.specs.Refused.{FilesHold, StoresOpen, TellsFiles, TellsOutputs, TellsStores, WhyNoStores, WhyNoOutputs, WhyRefused};
ghost use Rattle.restore_trim.specs.Standing.{AllSound, HoldsStores, HoldsOutputs, IsRestored, OthersStay, SameFrom, SameOutside};

use crate::OpenFault;
use crate::opening::{open_file, open_marks};
use crate::reverting::open_store;
use changelog::Changelog;
use disk_model::Disk;
use kv_store::Table;
use samza_model::{Checkpoint, Items, Setup, put};
use std::alloc::Global;
use topic_log::Log;

/// What a task's files restored to, and its open logs.
#[derive(Drop)]
pub struct Restored {
    /// The last checkpoint; none where the task never committed.
    pub checkpoint: Option<Checkpoint>,
    /// The stores' contents at it, in the setup's order.
    pub tables: Items<Table>,
    /// The checkpoint file's log.
    pub marks: Log,
    /// One a store, in the setup's order.
    pub changelogs: Items<Changelog>,
    /// One an output, in the setup's order.
    pub outputs: Items<Log>,
}

/// How many records of the i-th store's changelog the checkpoint counts.
fn counted(mark: &Option<Checkpoint>, store: usize) -> u64
    ensures { result ≡ count_at mark.now store }
{
    match mark {
        Some(checkpoint) => match checkpoint.stores.as_slice().get(store) {
            Some(mark) => mark.count,
            None => 0,
        },
        None => 0,
    }
}

/// The stores' changelogs and contents, one after another.
fn open_stores<D: Disk>(
    alloc: Global,
    disk: &mut D,
    mark: &Option<Checkpoint>,
    stores: u32,
) -> Result<(Vec<Changelog>, Vec<Table>), OpenFault>
    requires { stores ≤ 15 }
    ensures stores { IfOk result (λ r. D.tells
        → HoldsStores (D.reads disk.old) (D.reads disk.new) (D.images disk.new) mark.now stores
        r.0.items r.1.items) }
    ensures opens { OnOk result (D.tells → StoresOpen (D.reads disk.old) mark.now stores) }
    ensures behind { OnOk result (D.tells
        → SameFrom (changelog_file stores) (D.reads disk.old) (D.reads disk.new)) }
    ensures sizes { IfOk result (λ r. (length r.0.items ≡ stores) × (length r.1.items ≡ stores)) }
    ensures limits { IfOk result (λ r. All AreWithinLimits r.1.items) }
    ensures sound { IfOk result (λ r. AllSound r.0.items) }
    ensures others { OnOk result (D.tells → (log : LogValue) (frames : List (List Record))
        → file_of log ≡ checkpoint_file → IsOpen (D.reads disk.old) (D.images disk.old) log frames
        → IsOpen (D.reads disk.new) (D.images disk.new) log frames) }
    ensures why { IfErr result (λ e. D.tells → WhyNoStores (D.reads disk.old) mark.now stores e) }
    ensures told { IfErr result (TellsStores stores) }
    ensures any_moment { D.tells
        → LeavesOnly D.call_number D.images D.images_since disk.old disk.new
        (RevertsFiles mark.now stores) }
    ensures refused { IfErr result (λ e. e ≢ OpenFault.Device → D.tells
        → SameFrom (changelog_file stores) (D.reads disk.old) (D.reads disk.new)) }
    ensures device { IfErr result (λ e. e ≡ OpenFault.Device
        → Rose (D.fault_count disk.old) (D.fault_count disk.new)) }
    ensures later { D.fault_count disk.old ≤ D.fault_count disk.new }
    ensures name { D.name disk.new ≡ D.name disk.old }
{
    let mut logs = Vec::new(alloc);
    let mut tables = Vec::new(alloc);
    for i in 0..stores {
        let (log, table) = match open_store(alloc, disk, i, counted(mark, i as usize)) {
            Ok(opened) => opened,
            Err(fault) => return Err(fault),
        };
        match put(&mut logs, log) {
            Ok(()) => {}
            Err(_) => return Err(OpenFault::NoMemory),
        }
        match put(&mut tables, table) {
            Ok(()) => {}
            Err(_) => return Err(OpenFault::NoMemory),
        }
    }
    Ok((logs, tables))
}

/// The outputs' logs, one after another.
fn open_outputs<D: Disk>(alloc: Global, disk: &mut D, outputs: u32) -> Result<Vec<Log>, OpenFault>
    requires { outputs ≤ 2 ^ 16 }
    ensures outputs { IfOk result (λ r. D.tells
        → HoldsOutputs (D.reads disk.old) (D.reads disk.new) (D.images disk.new) outputs r.items) }
    ensures sizes { IfOk result (λ r. length r.items ≡ outputs) }
    ensures sound { IfOk result (λ r. AllSound r.items) }
    ensures elsewhere { OnOk result (D.tells
        → SameOutside (output_file 0) outputs (D.reads disk.old) (D.reads disk.new)) }
    ensures others { OnOk result (D.tells → (log : LogValue) (frames : List (List Record))
        → file_of log < output_file 0 → IsOpen (D.reads disk.old) (D.images disk.old) log frames
        → IsOpen (D.reads disk.new) (D.images disk.new) log frames) }
    ensures why { IfErr result (λ e. D.tells → WhyNoOutputs (D.reads disk.old) outputs e) }
    ensures told { IfErr result (TellsOutputs outputs) }
    ensures any_moment { D.tells
        → LeavesOnly D.call_number D.images D.images_since disk.old disk.new
        (KeepsOutputs outputs) }
    ensures refused { IfErr result (λ e. e ≢ OpenFault.Device → D.tells
        → SameOutside (output_file 0) outputs (D.reads disk.old) (D.reads disk.new)) }
    ensures device { IfErr result (λ e. e ≡ OpenFault.Device
        → Rose (D.fault_count disk.old) (D.fault_count disk.new)) }
    ensures later { D.fault_count disk.old ≤ D.fault_count disk.new }
    ensures name { D.name disk.new ≡ D.name disk.old }
{
    let mut logs = Vec::new(alloc);
    for j in 0..outputs {
        let log = match open_file(alloc, disk, 16 + j) {
            Ok(log) => log,
            Err(fault) => return Err(fault),
        };
        match put(&mut logs, log) {
            Ok(()) => {}
            Err(_) => return Err(OpenFault::NoMemory),
        }
    }
    Ok(logs)
}

/// Restores a task from its files, in this order: it opens the checkpoint file and takes its last checkpoint, whose names
/// are the setup's; for each store it opens the changelog, makes the content of the records that the checkpoint counts, and,
/// where there are more, appends what takes them back, in frames of at most 500; and it opens each output's log.
///
/// A refusal comes for the first cause in this order: `Damaged` where a file is no log, at its byte, or the checkpoint file
/// ends with no checkpoint; `Shape` where the names are others; `Ahead` where a changelog has fewer records than the
/// checkpoint counts; `Limit` where one would pass 2^40 bytes. `Device` comes only where the disk's count of faults rose.
pub fn restore<D: Disk>(alloc: Global, disk: &mut D, setup: &Setup) -> Result<Restored, OpenFault>
    requires few_stores { length setup.now.stores ≤ store_limit }
    requires few_outputs { length setup.now.outputs ≤ output_limit }

    // The files as they read restore to the checkpoint and the contents that are handed back.
    ensures restored { IfOk result (λ r. D.tells
        → Restores setup.now (D.reads disk.old) r.checkpoint r.tables) }
    // The logs are open, and all records of each changelog make just its store's content.
    ensures stands { IfOk result (λ r. D.tells
        → IsRestored setup.now (D.reads disk.old) (D.reads disk.new) (D.images disk.new)
        r.checkpoint r.marks r.changelogs r.outputs r.tables) }
    ensures opens { IfOk result (λ r. D.tells
        → FilesHold setup.now (D.reads disk.old) r.checkpoint) }
    // The files that are none of the task's read the same, also after a refusal but for `Device`.
    ensures others { OnOk result (D.tells
        → OthersStay (length setup.now.stores) (length setup.now.outputs) (D.reads disk.old)
        (D.reads disk.new)) }
    ensures refused_others { IfErr result (λ e. e ≢ OpenFault.Device → D.tells
        → OthersStay (length setup.now.stores) (length setup.now.outputs) (D.reads disk.old)
        (D.reads disk.new)) }
    // On every disk the checkpoint's number is the number of records of its file.
    ensures counted { IfOk result (λ r. count_of r.marks ≡ id_of r.checkpoint) }
    ensures named { IfOk result (λ r. (k : CheckpointValue) → r.checkpoint ≡ Some k
        → IsNamed setup.now k) }
    ensures limits { IfOk result (λ r. All AreWithinLimits r.tables) }
    ensures sizes { IfOk result (λ r. (length r.tables ≡ length setup.now.stores)
        × (length r.changelogs ≡ length setup.now.stores)
        × (length r.outputs ≡ length setup.now.outputs)) }
    ensures sound { IfOk result (λ r. (is_broken r.marks ≡ false) × AllSound r.changelogs
        × AllSound r.outputs) }

    ensures why { IfErr result (λ e. D.tells → WhyRefused setup.now (D.reads disk.old) e) }
    // On every disk a refusal tells a file that the task has, or a store of which more is counted than it holds.
    ensures told { IfErr result (TellsFiles (length setup.now.stores) (length setup.now.outputs)) }
    // A crash at any moment leaves files that restore as before, with nothing behind a changelog but its revert, and other files as
    // they were. So does the call, whatever it answers: what a read gives then is what a crash might have left.
    ensures any_moment { D.tells
        → LeavesOnly D.call_number D.images D.images_since disk.old disk.new
        (OpeningLeaves setup.now) }
    ensures reads { D.tells → (before : Image) × D.images disk.old before
        × OpeningLeaves setup.now before (D.reads disk.new) }
    // After Ok every image restores to what is handed back.
    ensures durable { IfOk result (λ r. D.tells → (c : Image) → D.images disk.new c
        → Restores setup.now c r.checkpoint r.tables) }
    ensures device { IfErr result (λ e. e ≡ OpenFault.Device
        → Rose (D.fault_count disk.old) (D.fault_count disk.new)) }
    ensures later { D.fault_count disk.old ≤ D.fault_count disk.new }
    ensures name { D.name disk.new ≡ D.name disk.old }
{
    let (marks, checkpoint) = match open_marks(alloc, disk, setup) {
        Ok(opened) => opened,
        Err(fault) => return Err(fault),
    };
    let stores = setup.stores.as_slice().len() as u32;
    let (changelogs, tables) = match open_stores(alloc, disk, &checkpoint, stores) {
        Ok(opened) => opened,
        Err(fault) => return Err(fault),
    };
    let outputs = match open_outputs(alloc, disk, setup.outputs.as_slice().len() as u32) {
        Ok(outputs) => outputs,
        Err(fault) => return Err(fault),
    };
    Ok(Restored {
        checkpoint,
        tables: Items::from_vec(tables),
        marks,
        changelogs: Items::from_vec(changelogs),
        outputs: Items::from_vec(outputs),
    })
}
