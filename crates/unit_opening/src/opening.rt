// How a task is opened: its files restored, its input read, and its first message found.
ghost use Rattle.std.specs.Prelude.{◌≡◌, ◌≢◌, ◌≤◌, ◌<◌, ◌⊎◌, ℕ, false, All, List, length, Some, None, IfOk, IfErr, OnOk};
ghost use Rattle.samza_model.specs.declared.messages.Record.{Record as RecordValue};
ghost use Rattle.samza_model.specs.declared.checkpoints.Checkpoint.{Checkpoint as CheckpointValue};
ghost use Rattle.samza_model.specs.Counters.{Rose};
ghost use Rattle.samza_model.specs.Files.{Image};
ghost use Rattle.samza_model.specs.Logs.{HasLog};
ghost use Rattle.samza_model.specs.Partition.{partition_of};
ghost use Rattle.samza_model.specs.Restored.{Restores, id_of, next_at, start_of};
ghost use Rattle.disk_model.specs.Images.{LeavesOnly};
ghost use Rattle.kv_store.specs.Tracked.{AreWithinLimits};
ghost use Rattle.topic_log.specs.Opened.{count_of};
ghost use Rattle.restore_trim.specs.Crashes.{OpeningLeaves};
ghost use Rattle.restore_trim.specs.Refused.{StoresOpen};
ghost use Rattle.restore_trim.specs.Standing.{OthersStay};
ghost use Rattle.core_steps.specs.Held.{Held, contents_of};
ghost use Rattle.unit_logs.specs.Standing.{IsSetUp, OnDisk};
ghost use Rattle.unit_logs.specs.Written.{AreSound};
ghost use Rattle.unit_opening.specs.Inputs.{TellsInput, WhyNoInput, input_of};
ghost use Rattle.unit_opening.specs.Opened.{AreWhole, LogsStay};
ghost use Rattle.unit_opening.specs.Refused.{TellsTask, WhyNotOpened};

use crate::OpenFault;
use changelog::Changelog;
use disk_model::{Disk, Shelf};
use kv_store::Table;
use restore_trim::{Restored, restore};
use samza_model::{Checkpoint, InputSetup, Items, NoMemory, OffsetDefault, Record, Setup, put};
use std::alloc::Global;
use topic_log::{Log, LogFault, read_shelf};
use unit_logs::Logs;

/// What a task opens with: its open logs, what its files restored to, and its input.
#[derive(Drop)]
pub struct OpenedTask {
    /// The task's logs, open and sound.
    pub logs: Logs,
    /// The last checkpoint; none where the task never committed.
    pub mark: Option<Checkpoint>,
    /// The stores' contents at it, in the setup's order.
    pub tables: Items<Table>,
    /// The input's messages, from offset 0 on.
    pub messages: Vec<Record>,
    /// The offset of the first message to process; at most one more than the last message's.
    pub next: u64,
}

/// The changelogs' logs.
fn logs_of(alloc: Global, changelogs: Items<Changelog>) -> Result<Vec<Log>, NoMemory>
    ensures { IfOk result (λ r. r.items ≡ changelogs) }
{
    let mut logs = Vec::new(alloc);
    for changelog in changelogs.into_vec() {
        put(&mut logs, changelog.into_log())?;
    }
    Ok(logs)
}

/// An input's first offset: the kept one, unless there is none or the input is reset.
#[tactic(auto, using(samza_model::proofs::Laws::start_in, samza_model::proofs::Laws::end_in))]
fn first_offset(kept: Option<u64>, input: &InputSetup, end: u64) -> Result<u64, OpenFault>
    ensures start { IfOk result (λ n. (records : List RecordValue) → end ≡ length records
        → n ≡ start_of kept input.now (partition_of records)) }
    ensures within { IfOk result (λ n. n ≤ end) }
    ensures never { IfErr result (λ e. e ≢ OpenFault.Device) }
    ensures told { (partition : ℕ) → IfErr result (TellsInput partition) }
    ensures ahead { IfErr result (λ e. (next : ℕ) × (e ≡ OpenFault.Ahead (Some 0) None next end)
        × (kept ≡ Some next) × (input.now.reset ≡ false) × (end < next)) }
{
    match kept {
        Some(next) if !input.reset => {
            if end < next {
                return Err(OpenFault::Ahead {
                    input: Some(0),
                    store: None,
                    wanted: next,
                    held: end,
                });
            }
            Ok(next)
        }
        _ => match input.fallback {
            OffsetDefault::Oldest => Ok(0),
            OffsetDefault::Upcoming => Ok(end),
        },
    }
}

/// The first uncovered offset of the checkpoint's first input.
fn kept_offset(mark: &Option<Checkpoint>) -> Option<u64>
    ensures kept { (k : CheckpointValue) → mark.now ≡ Some k → 0 < length k.inputs
        → result ≡ next_at mark.now 0 }
    ensures none { mark.now ≡ None → result ≡ None }
{
    match mark {
        Some(checkpoint) => match checkpoint.inputs.as_slice().get(0) {
            Some(input) => Some(input.next),
            None => None,
        },
        None => None,
    }
}

/// The setup's one input.
fn first_input(setup: &Setup) -> &InputSetup
    requires { length setup.now.inputs ≡ 1 }
    ensures { result.now ≡ input_of setup.now }
{
    &setup.inputs.as_slice()[0]
}

/// An input's messages.
fn read_input<S: Shelf>(
    alloc: Global,
    shelf: &mut S,
    partition: u32,
) -> Result<Vec<Record>, OpenFault>
    ensures log { IfOk result (λ records. S.tells → HasLog (S.bytes shelf.old) records.items) }
    ensures why { IfErr result (λ e. WhyNoInput S.tells (S.bytes shelf.old) partition e) }
    ensures told { IfErr result (TellsInput partition) }
    ensures device { IfErr result (λ e. e ≡ OpenFault.Device
        → Rose (S.fault_count shelf.old) (S.fault_count shelf.new)) }
    ensures later { S.fault_count shelf.old ≤ S.fault_count shelf.new }
    ensures name { S.name shelf.new ≡ S.name shelf.old }
    ensures file { S.file shelf.new ≡ S.file shelf.old }
{
    match read_shelf(alloc, shelf) {
        Ok(records) => Ok(records),
        Err(LogFault::Device) => Err(OpenFault::Device),
        Err(LogFault::Damaged { at }) => Err(OpenFault::Damaged {
            input: Some(0),
            file: partition,
            at,
        }),
        Err(LogFault::NoMemory) => Err(OpenFault::NoMemory),
        Err(LogFault::Limit | LogFault::Broken) => unreachable!(),
    }
}

/// What a task opens with, of what was restored and of its input's messages.
fn gather(
    alloc: Global,
    restored: Restored,
    messages: Vec<Record>,
    next: u64,
) -> Result<OpenedTask, NoMemory>
    ensures logs { IfOk result (λ r. (r.logs.marks ≡ restored.marks)
        × (r.logs.changelogs.items ≡ restored.changelogs)
        × (r.logs.outputs.items ≡ restored.outputs)) }
    ensures restored { IfOk result (λ r. (r.mark ≡ restored.checkpoint)
        × (r.tables ≡ restored.tables)) }
    ensures input { IfOk result (λ r. (r.messages.items ≡ messages.items) × (r.next ≡ next)) }
{
    let changelogs = logs_of(alloc, restored.changelogs)?;
    Ok(OpenedTask {
        logs: Logs {
            marks: restored.marks,
            changelogs,
            outputs: restored.outputs.into_vec(),
        },
        mark: restored.checkpoint,
        tables: restored.tables,
        messages,
        next,
    })
}

/// Restores a task from its files, reads its input, and finds the input's first message to process.
///
/// Records of a changelog behind those that the checkpoint counts are taken back by others behind them. A refusal has the first
/// cause in the order of work: `restore`'s; then `Device` of the shelf, or `Damaged` where the input's file is no log; then
/// `Ahead` where the checkpoint covers more of the input than it has. `NoMemory` may come at any step.
pub fn open_task<D: Disk, S: Shelf>(
    alloc: Global,
    setup: &Setup,
    disk: &mut D,
    shelf: &mut S,
) -> Result<OpenedTask, OpenFault>
    requires { IsSetUp setup.now }
    // The files restore to the checkpoint and the contents that are handed back.
    ensures restored { IfOk result (λ r. D.tells
        → Restores setup.now (D.reads disk.old) r.mark r.tables) }
    ensures opens { IfOk result (λ r. D.tells
        → StoresOpen (D.reads disk.old) r.mark (length setup.now.stores)) }
    // Whatever holds just these contents stands on the disk.
    ensures on_disk { IfOk result (λ r. D.tells → (h : Held) → contents_of h.stores ≡ r.tables
        → OnDisk (D.reads disk.new) (D.images disk.new) setup.now r.logs r.mark h) }
    // The logs are as they were, but for what takes the records behind those that the checkpoint counts back.
    ensures logs_stay { IfOk result (λ r. D.tells
        → LogsStay setup.now r.mark (D.reads disk.old) (D.reads disk.new)) }
    // All records of each changelog make its store's content.
    ensures whole { IfOk result (λ r. D.tells → AreWhole setup.now (D.reads disk.new) r.tables) }
    // The files that are none of the task's are as before, also after a refusal but for `Device`.
    ensures others { OnOk result (D.tells
        → OthersStay (length setup.now.stores) (length setup.now.outputs) (D.reads disk.old)
        (D.reads disk.new)) }
    ensures refused_others { IfErr result (λ e. e ≢ OpenFault.Device → D.tells
        → OthersStay (length setup.now.stores) (length setup.now.outputs) (D.reads disk.old)
        (D.reads disk.new)) }
    ensures messages { IfOk result (λ r. S.tells → HasLog (S.bytes shelf.old) r.messages.items) }
    ensures start { IfOk result (λ r. r.next ≡ start_of (next_at r.mark 0) (input_of setup.now)
        (partition_of r.messages.items)) }
    ensures within { IfOk result (λ r. r.next ≤ length r.messages.items) }
    ensures limits { IfOk result (λ r. All AreWithinLimits r.tables) }
    ensures as_many { IfOk result (λ r. length r.tables ≡ length setup.now.stores) }
    ensures changelogs { IfOk result (λ r. length r.logs.changelogs.items
        ≡ length setup.now.stores) }
    ensures outputs { IfOk result (λ r. length r.logs.outputs.items ≡ length setup.now.outputs) }
    ensures sound { IfOk result (λ r. AreSound r.logs) }
    // On every disk the checkpoint's number is the number of records of its file.
    ensures counted { IfOk result (λ r. count_of r.logs.marks ≡ id_of r.mark) }
    ensures why { IfErr result (λ e. WhyNotOpened D.tells S.tells setup.now (D.reads disk.old)
        (S.bytes shelf.old) e) }
    // On every outside a refusal tells a file that the task has, a store of which more is counted than it holds, or the input.
    ensures told { IfErr result (TellsTask setup.now) }
    // After Ok every image restores to what is handed back, and its logs stay so too.
    ensures durable { IfOk result (λ r. D.tells → (c : Image) → D.images disk.new c
        → Restores setup.now c r.mark r.tables) }
    ensures logs_durable { IfOk result (λ r. D.tells → (c : Image) → D.images disk.new c
        → LogsStay setup.now r.mark (D.reads disk.old) c) }
    // A crash at any moment leaves files that restore as before.
    ensures any_moment { D.tells
        → LeavesOnly D.call_number D.images D.images_since disk.old disk.new
        (OpeningLeaves setup.now) }
    ensures device { IfErr result (λ e. e ≡ OpenFault.Device
        → Rose (D.fault_count disk.old) (D.fault_count disk.new)
        ⊎ Rose (S.fault_count shelf.old) (S.fault_count shelf.new)) }
    ensures later { (D.fault_count disk.old ≤ D.fault_count disk.new)
        × (S.fault_count shelf.old ≤ S.fault_count shelf.new) }
    ensures name { D.name disk.new ≡ D.name disk.old }
    ensures shelf { (S.name shelf.new ≡ S.name shelf.old) × (S.file shelf.new ≡ S.file shelf.old) }
{
    let restored = match restore(alloc, disk, setup) {
        Ok(restored) => restored,
        Err(fault) => return Err(fault),
    };
    let input = first_input(setup);
    let messages = match read_input(alloc, shelf, input.ssp.partition) {
        Ok(messages) => messages,
        Err(fault) => return Err(fault),
    };
    let next = match first_offset(
        kept_offset(&restored.checkpoint),
        input,
        messages.as_slice().len() as u64,
    ) {
        Ok(next) => next,
        Err(fault) => return Err(fault),
    };
    match gather(alloc, restored, messages, next) {
        Ok(opened) => Ok(opened),
        Err(_) => Err(OpenFault::NoMemory),
    }
}
