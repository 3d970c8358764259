// A unit's commits.
ghost use Rattle.std.specs.Prelude.{◌≡◌, ◌≢◌, ◌≤◌, ◌⊎◌, ◌+◌, ◌<◌, ◌^◌, ℕ, [], List, length, true, false, Some, None, IfOk, Err, IfErr, OnOk, OnErr, vec_len, vec_capacity};
ghost use Rattle.samza_model.specs.declared.checkpoints.Checkpoint.{Checkpoint as CheckpointValue};
ghost use Rattle.samza_model.specs.Counters.{Rose};
ghost use Rattle.samza_model.specs.Marks.{last_mark};
ghost use Rattle.samza_model.specs.Content.{Content};
ghost use Rattle.samza_model.specs.Files.{Image};
ghost use Rattle.samza_model.specs.Restored.{Restores, next_at};
ghost use Rattle.disk_model.specs.Images.{LeavesOnly};
ghost use Rattle.restore_trim.specs.Standing.{OthersStay};
ghost use Rattle.core_steps.specs.Cores.{IsCore};
ghost use Rattle.core_steps.specs.Lanes.{lane_at};
ghost use Rattle.task_core.specs.Plans.{IsKept};
ghost use Rattle.topic_log.specs.Opened.{count_of};
ghost use Rattle.unit_logs.specs.Planned.{PlansCommit};
ghost use Rattle.unit_logs.specs.Standing.{IsSetUp};
ghost use Rattle.unit_logs.specs.Written.{LacksRoomFor, Reaches};
ghost use Rattle.unit_logs.specs.declared.faults.CommitFault.{CommitFault as CommitFaultValue};
ghost use Rattle.event_unit.specs.Committing.{commit_refusal, CommitPasses, CrashLeaves, IsCommitOf};
ghost use Rattle.unit_steps.specs.Units.{Marks, Begins};

use crate::units::TaskUnit;
use disk_model::{Disk, Shelf};
use samza_model::{Job, KeptMark, NoMemory};
use std::alloc::Global;
use task_core::{Core, Plan};
use unit_logs::{CommitFault, Logs, Reach};

/// A checkpoint that was made, by its number.
#[derive(Clone, Copy, Debug, PartialEq, Eq)]
pub struct Mark {
    pub id: u64,
}

/// Why no commit may begin; none where one may.
fn refusal(broken: bool, core: &Core) -> Option<CommitFault>
    ensures refusal { result ≡ commit_refusal broken core.now }
    ensures core { IsCore core.now }
{
    let _number = core.number();
    if core.is_failed() {
        return Some(CommitFault::Failed);
    }
    if broken {
        return Some(CommitFault::Broken);
    }
    if core.is_windowing() {
        return Some(CommitFault::Windowing);
    }
    let in_flight = core.in_flight();
    if core.setup().async_commit || in_flight == 0 {
        return None;
    }
    Some(CommitFault::Busy { in_flight })
}

/// What a commit appends, the checkpoint that it makes, and what the core keeps behind it. The one error is want of memory.
fn make_plan(alloc: Global, core: &Core, logs: &Logs) -> Result<Plan, NoMemory>
    requires set_up { IsSetUp core.now.setup }
    requires changelogs { length logs.now.changelogs.items ≡ length core.now.setup.stores }
    requires counted { core.now.last ≡ count_of logs.now.marks }
    ensures planned { IfOk result (λ plan. PlansCommit core.now.setup logs.now core.now.held
        (lane_at core.now.lanes 0).low plan.frames plan.mark) }
    ensures kept { IfOk result (λ plan. IsKept core.now plan.kept) }
    ensures core { IsCore core.now }
{
    let _number = core.number();
    let _records = logs.marks.len();
    let lens = logs.lens(alloc)?;
    match core.plan(lens.as_slice()) {
        Ok(plan) => Ok(plan),
        Err(_) => Err(NoMemory),
    }
}

/// The plan, and how far the logs reach behind it. `Limit` comes where one of the files would pass 2^40 bytes.
fn plan_of(alloc: Global, core: &Core, logs: &Logs) -> Result<(Plan, Reach), CommitFault>
    requires set_up { IsSetUp core.now.setup }
    requires changelogs { length logs.now.changelogs.items ≡ length core.now.setup.stores }
    requires outputs { length logs.now.outputs.items ≡ length core.now.setup.outputs }
    requires counted { core.now.last ≡ count_of logs.now.marks }
    ensures planned { IfOk result (λ r. PlansCommit core.now.setup logs.now core.now.held
        (lane_at core.now.lanes 0).low r.0.frames r.0.mark) }
    ensures kept { IfOk result (λ r. IsKept core.now r.0.kept) }
    ensures reaches { IfOk result (λ r. Reaches logs.now r.0.frames r.1) }
    ensures limit { IfErr result (λ e. e ≡ CommitFault.Limit
        → LacksRoomFor core.now.setup logs.now core.now.held (lane_at core.now.lanes 0).low) }
    ensures fault { IfErr result (λ e. (e ≡ CommitFault.NoMemory) ⊎ (e ≡ CommitFault.Limit)) }
    ensures core { IsCore core.now }
{
    let plan = make_plan(alloc, core, logs)?;
    match logs.reach(alloc, &plan.frames) {
        Ok(reach) => Ok((plan, reach)),
        Err(fault) => Err(fault),
    }
}

/// Takes the memory for one mark more.
fn make_room(marks: &mut Vec<KeptMark>) -> Result<(), CommitFault>
    ensures same { marks.new.items ≡ marks.old.items }
    ensures room { OnOk result (vec_len marks.new < vec_capacity marks.new) }
    ensures fault { IfErr result (λ e. e ≡ CommitFault.NoMemory) }
{
    match marks.reserve(1) {
        Ok(()) => Ok(()),
        Err(_) => Err(CommitFault::NoMemory),
    }
}

impl<'j, J: Job, D: Disk, S: Shelf> TaskUnit<'j, J, D, S> {
    /// Commits: appends what the outputs were sent and the changes of the stores, and then the next mark, which covers of the
    /// input all below the first message whose callback isn't complete.
    ///
    /// Refusals, in this order: `Failed` where a turn failed, `Broken` where an earlier commit answered `Device`, `Windowing`
    /// where a window is open, `Busy` where callbacks are in flight and the setup has commits await them; then `NoMemory`, and
    /// `Limit` where a file would pass 2^40 bytes, before anything is written. After these all is as before. After `Device` the
    /// unit is broken.
    pub fn commit(&mut self) -> Result<Mark, CommitFault>
        ensures marked { IfOk result (λ m. (made : CheckpointValue) × (m.id ≡ made.id)
            × Marks J.meaning D.tells D.reads D.call_number D.images D.images_since
            self.old self.new made) }
        ensures begun { IfErr result (λ e. e ≡ CommitFault.Device
            → Begins J.meaning D.tells D.reads D.call_number D.images D.images_since
            self.old self.new) }
        ensures refused { IfErr result (λ e. e ≢ CommitFault.Device → self.new ≡ self.old) }
        ensures first { (e : CommitFaultValue) → commit_refusal self.old.broken self.old.core
            ≡ Some e
            → result ≡ Err e }
        ensures others { commit_refusal self.old.broken self.old.core ≡ None
            → IfErr result (λ e. (e ≡ CommitFault.NoMemory) ⊎ ((e ≡ CommitFault.Limit)
            ⊎ (e ≡ CommitFault.Device))) }
        // After Ok every image has the new checkpoint behind the others, and each other log what it appends.
        ensures durable { OnOk result (D.tells → (made : CheckpointValue)
            → last_mark self.new.marks ≡ Some made → (c : Image) → D.images self.new.disk c
            → IsCommitOf self.old (D.reads self.old.disk) c made) }
        // A crash at any moment leaves the checkpoint before with its contents, or the next one with the unit's.
        ensures any_moment { D.tells → self.old.broken ≡ false → (contents : List Content)
            → Restores self.old.core.setup (D.reads self.old.disk) (last_mark self.old.marks)
            contents
            → LeavesOnly D.call_number D.images D.images_since self.old.disk self.new.disk
            (CrashLeaves self.old (D.reads self.old.disk) contents) }
        ensures covers { OnOk result (next_at (last_mark self.new.marks) 0
            ≡ Some (lane_at self.old.core.lanes 0).low) }
        // `Limit` comes where a file would pass 2^40 bytes, and nothing is written where one would.
        ensures limit { IfErr result (λ e. e ≡ CommitFault.Limit → D.tells
            → CommitPasses self.old (D.reads self.old.disk)) }
        ensures tested { IfErr result (λ e. e ≡ CommitFault.Device → D.tells
            → CommitPasses self.old (D.reads self.old.disk) → ⊥) }
        ensures room { OnOk result (D.tells → CommitPasses self.old (D.reads self.old.disk) → ⊥) }
        // The files that are none of the task's are as before, and in each image at any moment.
        ensures others_stay { OnOk result (D.tells
            → OthersStay (length self.old.core.setup.stores) (length self.old.core.setup.outputs)
            (D.reads self.old.disk) (D.reads self.new.disk)) }
        ensures others_any_moment { D.tells
            → LeavesOnly D.call_number D.images D.images_since self.old.disk self.new.disk
            (OthersStay (length self.old.core.setup.stores)
            (length self.old.core.setup.outputs)) }
        ensures device { IfErr result (λ e. e ≡ CommitFault.Device
            → Rose (D.fault_count self.old.disk) (D.fault_count self.new.disk)) }
        ensures later { D.fault_count self.old.disk ≤ D.fault_count self.new.disk }
        ensures name { D.name self.new.disk ≡ D.name self.old.disk }
    {
        if let Some(fault) = refusal(self.broken, &self.core) {
            return Err(fault);
        }
        make_room(&mut self.marks)?;
        let (plan, reach) = plan_of(self.alloc, &self.core, &self.logs)?;
        self.begun = Some(self.core.events() as u64);
        self.broken = true;
        match self.logs.write(&mut self.disk, &plan.frames, &reach) {
            Ok(()) => {}
            Err(fault) => return Err(fault),
        }
        let Plan {
            mark: made,
            kept,
            ..
        } = plan;
        let mark = Mark { id: made.id };
        let at = self.disk.calls();
        self.core.committed(kept);
        self.marks.push_reserved(KeptMark {
            checkpoint: Some(made),
            at,
        });
        self.begun = None;
        self.broken = false;
        Ok(mark)
    }
}
