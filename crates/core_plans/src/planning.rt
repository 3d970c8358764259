// A commit, planned in memory.
ghost use Rattle.std.specs.Prelude.{◌≡◌, ◌<◌, ◌^◌, length, IfOk};
ghost use Rattle.std.specs.List.{AllByRecursion};
ghost use Rattle.core_steps.specs.Setups.{IsCommittable};
ghost use Rattle.core_plans.specs.Plans.{PlansMark, PlansSends, PlansStores};

use crate::changes::plan_stores;
use crate::marks::{make_mark, mark_frame};
use crate::sends::plan_sends;
use kv_store::TrackedTable;
use log_frame::Frame;
use output_log::Outputs;
use samza_model::{Checkpoint, Items, NoMemory, Setup};
use std::alloc::Global;

/// What a commit appends.
#[derive(Drop)]
pub struct Frames {
    /// What each output was sent, in the setup's order, in frames of at most 500 records.
    pub outputs: Items<Items<Frame>>,
    /// What each store changed, in the setup's order, in frames of at most the store's batch.
    pub stores: Items<Items<Frame>>,
    /// The checkpoint's record alone.
    pub checkpoint: Frame,
}

/// What a commit appends, and the checkpoint that it makes, whose number is `id`. It covers of each input what is below
/// its next offset, by `nexts`. Each changelog has as many records as `lens` says. The one error is want of memory.
pub fn plan(
    alloc: Global,
    setup: &Setup,
    nexts: &[u64],
    stores: &[TrackedTable],
    outputs: &Outputs,
    lens: &[u64],
    id: u64,
) -> Result<(Frames, Checkpoint), NoMemory>
    requires committable { IsCommittable setup.now }
    requires nexts { length nexts.now ≡ length setup.now.inputs }
    requires stores { length stores.now ≡ length setup.now.stores }
    requires lens { length lens.now ≡ length setup.now.stores }
    requires below { AllByRecursion (λ n. n < 2 ^ 63) lens.now }
    ensures stores { IfOk result (λ r. PlansStores setup.now lens.now stores.now r.0.stores
        r.1.stores) }
    ensures sends { IfOk result (λ r. PlansSends outputs.now.unsent r.0.outputs) }
    ensures mark { IfOk result (λ r. PlansMark setup.now nexts.now id r.0.checkpoint r.1) }
{
    let sends = plan_sends(alloc, outputs)?;
    let (changes, marks) = plan_stores(alloc, setup, stores, lens)?;
    let mark = make_mark(alloc, setup, nexts, id, marks)?;
    let checkpoint = mark_frame(alloc, &mark)?;
    let frames = Frames {
        outputs: Items::from_vec(sends),
        stores: Items::from_vec(changes),
        checkpoint,
    };
    Ok((frames, mark))
}
