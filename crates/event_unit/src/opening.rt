// How a unit is opened.
ghost use Rattle.std.specs.Prelude.{◌≡◌, ◌≢◌, ◌≤◌, ◌<◌, ◌∷◌, ◌⊎◌, ◌^◌, ℕ, [], All, length, Some, None, false, IfOk, IfErr};
ghost use Rattle.samza_model.specs.Counters.{Rose};
ghost use Rattle.samza_model.specs.Files.{Image};
ghost use Rattle.samza_model.specs.Logs.{HasLog};
ghost use Rattle.samza_model.specs.Marks.{last_mark};
ghost use Rattle.samza_model.specs.Partition.{partition_of};
ghost use Rattle.samza_model.specs.Ran.{fresh};
ghost use Rattle.samza_model.specs.Restored.{Restores, id_of, next_at, start_of};
ghost use Rattle.disk_model.specs.Images.{LeavesOnly};
ghost use Rattle.kv_store.specs.Tracked.{AreWithinLimits};
ghost use Rattle.core_steps.specs.Begun.{AreClean, AreUnsent, IsGiven};
ghost use Rattle.core_steps.specs.Cores.{Outside, Stands as CoreStands};
ghost use Rattle.core_steps.specs.Held.{contents_of};
ghost use Rattle.core_steps.specs.Laws.{IsFresh};
ghost use Rattle.core_steps.specs.Setups.{IsRunnable};
ghost use Rattle.restore_trim.specs.Crashes.{OpeningLeaves};
ghost use Rattle.restore_trim.specs.Refused.{StoresOpen};
ghost use Rattle.restore_trim.specs.Standing.{OthersStay};
ghost use Rattle.unit_logs.specs.Standing.{IsSetUp};
ghost use Rattle.unit_opening.specs.Inputs.{input_of};
ghost use Rattle.unit_opening.specs.Opened.{LogsStay};
ghost use Rattle.unit_opening.specs.Refused.{TellsTask, WhyNotOpened};
ghost use Rattle.unit_steps.specs.Units.{opened_history, Stands};

use crate::units::TaskUnit;
use disk_model::{Disk, Shelf};
use kv_store::Table;
use samza_model::{Checkpoint, Items, Job, KeptMark, NoMemory, Record, Setup};
use std::alloc::Global;
use task_core::Core;
use unit_logs::Logs;
use unit_opening::{OpenFault, OpenedTask, open_task};

/// A core over what was opened, in which nothing has happened yet.
fn begin_core(
    alloc: Global,
    setup: Setup,
    tables: Items<Table>,
    next: u64,
    end: u64,
    last: u64,
    moment: u64,
) -> Result<Core, NoMemory>
    requires one_input { length setup.inputs ≡ 1 }
    requires runnable { IsRunnable setup }
    requires within { next ≤ end }
    requires few { end < 2 ^ 63 }
    requires tables { length tables ≡ length setup.stores }
    requires limits { All AreWithinLimits tables }
    ensures fresh { IfOk result IsFresh }
    ensures given { IfOk result (IsGiven setup (next ∷ []) (end ∷ []) last moment) }
    ensures contents { IfOk result (λ c. contents_of c.held.stores ≡ tables) }
    ensures clean { IfOk result (λ c. AreClean c.held.stores) }
    ensures unsent { IfOk result (λ c. AreUnsent (length setup.outputs) c.held) }
    ensures stands { IfOk result (λ c. (o : Outside) → o.state ≡ fresh setup tables
        → CoreStands o c [] 0) }
{
    let mut starts = Vec::new(alloc);
    starts.push(next)?;
    let mut ends = Vec::new(alloc);
    ends.push(end)?;
    Core::new(alloc, setup, starts, ends, last, tables, moment)
}

/// The one mark of a unit that is opened: the checkpoint to which it was restored.
fn first_mark(
    alloc: Global,
    checkpoint: Option<Checkpoint>,
    at: u64,
) -> Result<Vec<KeptMark>, NoMemory>
    ensures { IfOk result (λ marks. marks.items
        ≡ record { checkpoint = checkpoint; at = at } ∷ []) }
{
    let mut marks = Vec::new(alloc);
    marks.push(KeptMark { checkpoint, at })?;
    Ok(marks)
}

/// The number of a checkpoint, or 0 where there is none.
fn number_of(checkpoint: &Option<Checkpoint>) -> u64
    ensures { result ≡ id_of checkpoint.now }
{
    match checkpoint {
        Some(checkpoint) => checkpoint.id,
        None => 0,
    }
}

/// What a unit begins with.
#[derive(Drop)]
struct Begun {
    core: Core,
    logs: Logs,
    messages: Vec<Record>,
    marks: Vec<KeptMark>,
}

/// A unit's parts, of what its task's opening handed back.
fn begin(
    alloc: Global,
    setup: Setup,
    opened: OpenedTask,
    at: u64,
    moment: u64,
) -> Result<Begun, NoMemory>
    requires one_input { length setup.inputs ≡ 1 }
    requires runnable { IsRunnable setup }
    requires within { opened.next ≤ length opened.messages.items }
    requires few { length opened.messages.items < 2 ^ 63 }
    requires tables { length opened.tables ≡ length setup.stores }
    requires limits { All AreWithinLimits opened.tables }
    ensures fresh { IfOk result (λ b. IsFresh b.core) }
    ensures given { IfOk result (λ b. IsGiven setup (opened.next ∷ [])
        (length opened.messages.items ∷ []) (id_of opened.mark) moment b.core) }
    ensures contents { IfOk result (λ b. contents_of b.core.held.stores ≡ opened.tables) }
    ensures clean { IfOk result (λ b. AreClean b.core.held.stores) }
    ensures unsent { IfOk result (λ b. AreUnsent (length setup.outputs) b.core.held) }
    ensures stands { IfOk result (λ b. (o : Outside) → o.state ≡ fresh setup opened.tables
        → CoreStands o b.core [] 0) }
    ensures parts { IfOk result (λ b. (b.logs ≡ opened.logs)
        × (b.messages.items ≡ opened.messages.items)
        × (b.marks.items ≡ record { checkpoint = opened.mark; at = at } ∷ [])) }
{
    let OpenedTask {
        logs,
        mark,
        tables,
        messages,
        next,
    } = opened;
    let last = number_of(&mark);
    let marks = first_mark(alloc, mark, at)?;
    let end = messages.len() as u64;
    let core = begin_core(alloc, setup, tables, next, end, last, moment)?;
    Ok(Begun {
        core,
        logs,
        messages,
        marks,
    })
}

impl<'j, J: Job, D: Disk, S: Shelf> TaskUnit<'j, J, D, S> {
    /// Opens a task at a moment, in milliseconds: restores it from its files, reads its input, and stands at the input's first
    /// uncovered message with no events yet. Records of a changelog behind those that the checkpoint counts are taken back by
    /// others behind them. After a refusal the disk and the shelf come back.
    ///
    /// A refusal has the first cause in the order of work: a file that is damaged, names that aren't the setup's, a store of which
    /// more is counted than it holds, the input, and that the checkpoint covers more of the input than it has.
    pub fn open_unit(
        alloc: Global,
        job: &'j J,
        setup: Setup,
        disk: D,
        shelf: S,
        moment: u64,
    ) -> Result<TaskUnit<'j, J, D, S>, (OpenFault, D, S)>
        requires set_up { IsSetUp setup }
        requires runnable { IsRunnable setup }
        // The unit stands by no events, from the files as they were.
        ensures stands { IfOk result (λ u. (o : Outside) → o.job ≡ Some (J.meaning u.job)
            → o.parts ≡ Some (partition_of u.messages) ∷ []
            → o.state ≡ fresh setup (contents_of u.core.held.stores)
            → Stands J.meaning D.tells D.reads D.call_number D.images D.images_since o u
            (opened_history (D.reads disk))) }
        ensures restored { IfOk result (λ u. D.tells
            → Restores setup (D.reads disk) (last_mark u.marks) (contents_of u.core.held.stores)) }
        ensures opens { IfOk result (λ u. D.tells
            → StoresOpen (D.reads disk) (last_mark u.marks) (length setup.stores)) }
        ensures marks { IfOk result (λ u. (u.marks
            ≡ record { checkpoint = last_mark u.marks; at = D.call_number u.disk } ∷ [])
            × (u.begun ≡ None) × (u.broken ≡ false)) }
        ensures fresh { IfOk result (λ u. IsFresh u.core) }
        ensures clean { IfOk result (λ u. AreClean u.core.held.stores) }
        ensures unsent { IfOk result (λ u. AreUnsent (length setup.outputs) u.core.held) }
        ensures messages { IfOk result (λ u. S.tells → HasLog (S.bytes shelf) u.messages) }
        ensures start { IfOk result (λ u. IsGiven setup
            (start_of (next_at (last_mark u.marks) 0) (input_of setup) (partition_of u.messages) ∷ [])
            (length u.messages ∷ []) (id_of (last_mark u.marks)) moment u.core) }
        ensures job { IfOk result (λ u. u.job ≡ J.plain job.now) }
        // The logs are as they were, but for what takes the records behind those that the checkpoint counts back.
        ensures logs_stay { IfOk result (λ u. D.tells
            → LogsStay setup (last_mark u.marks) (D.reads disk) (D.reads u.disk)) }
        // The files that are none of the task's are as before, also after a refusal but for `Device`.
        ensures others { IfOk result (λ u. D.tells
            → OthersStay (length setup.stores) (length setup.outputs) (D.reads disk)
            (D.reads u.disk)) }
        ensures back_others { IfErr result (λ e. e.0 ≢ OpenFault.Device → D.tells
            → OthersStay (length setup.stores) (length setup.outputs) (D.reads disk)
            (D.reads e.1)) }
        // A crash at any moment leaves files that restore as before.
        ensures any_moment { IfOk result (λ u. D.tells
            → LeavesOnly D.call_number D.images D.images_since disk u.disk (OpeningLeaves setup)) }
        ensures back_any_moment { IfErr result (λ e. D.tells
            → LeavesOnly D.call_number D.images D.images_since disk e.1 (OpeningLeaves setup)) }
        ensures disk { IfOk result (λ u. (D.name u.disk ≡ D.name disk)
            × (D.fault_count disk ≤ D.fault_count u.disk)) }
        ensures shelf { IfOk result (λ u. (S.name u.shelf ≡ S.name shelf)
            × (S.file u.shelf ≡ S.file shelf) × (S.fault_count shelf ≤ S.fault_count u.shelf)) }
        ensures back_disk { IfErr result (λ e. (D.name e.1 ≡ D.name disk)
            × (D.fault_count disk ≤ D.fault_count e.1)) }
        ensures back_shelf { IfErr result (λ e. (S.name e.2 ≡ S.name shelf)
            × (S.file e.2 ≡ S.file shelf) × (S.fault_count shelf ≤ S.fault_count e.2)) }
        ensures why { IfErr result (λ e. WhyNotOpened D.tells S.tells setup (D.reads disk)
            (S.bytes shelf) e.0) }
        // On every outside a refusal tells a file that the task has, a store of which more is counted than it holds, or the input.
        ensures told { IfErr result (λ e. TellsTask setup e.0) }
        ensures device { IfErr result (λ e. e.0 ≡ OpenFault.Device
            → Rose (D.fault_count disk) (D.fault_count e.1)
            ⊎ Rose (S.fault_count shelf) (S.fault_count e.2)) }
    {
        let mut disk = disk;
        let mut shelf = shelf;
        let opened = match open_task(alloc, &setup, &mut disk, &mut shelf) {
            Ok(opened) => opened,
            Err(fault) => return Err((fault, disk, shelf)),
        };
        match begin(alloc, setup, opened, disk.calls(), moment) {
            Ok(begun) => Ok(TaskUnit {
                alloc,
                job,
                shelf,
                messages: begun.messages,
                core: begun.core,
                disk,
                logs: begun.logs,
                marks: begun.marks,
                begun: None,
                broken: false,
            }),
            Err(_) => Err((OpenFault::NoMemory, disk, shelf)),
        }
    }
}
