// A commit, planned in memory.
ghost use Rattle.std.specs.Prelude.{◌≡◌, ◌⊎◌, length, IfOk, IfErr};
ghost use Rattle.unit_logs.specs.Planned.{PlansCommit};
ghost use Rattle.unit_logs.specs.Standing.{IsSetUp};
ghost use Rattle.unit_logs.specs.Written.{LacksRoomFor, Reaches};

use crate::CommitFault;
use crate::writing::{Logs, Reach};
use core_plans::Frames;
use kv_store::TrackedTable;
use output_log::Outputs;
use samza_model::{Checkpoint, NoMemory, Setup};
use std::alloc::Global;
use std::slice;

/// What a commit appends, and the checkpoint that it makes. The checkpoint counts each changelog's records behind the
/// commit.
fn plan_frames(
    alloc: Global,
    setup: &Setup,
    logs: &Logs,
    stores: &[TrackedTable],
    outputs: &Outputs,
    next: u64,
) -> Result<(Frames, Checkpoint), NoMemory>
    requires set_up { IsSetUp setup.now }
    requires sized { length stores.now ≡ length setup.now.stores }
    requires changelogs { length logs.now.changelogs.items ≡ length setup.now.stores }
    ensures { IfOk result
        (λ r. PlansCommit setup.now logs.now
        (record {
          stores = stores.now;
          unsent = outputs.now.unsent;
          cleared
              = outputs.now.cleared;
        }) next r.0 r.1) }
{
    let lens = logs.lens(alloc)?;
    core_plans::plan(
        alloc,
        setup,
        slice::from_ref(&next),
        stores,
        outputs,
        lens.as_slice(),
        logs.marks.len() + 1,
    )
}

/// What a commit appends, how far the logs reach behind it, and the checkpoint that it makes.
///
/// `NoMemory` comes before `Limit`, which comes where one of the files would pass 2^40 bytes.
pub fn plan_commit(
    alloc: Global,
    setup: &Setup,
    logs: &Logs,
    stores: &[TrackedTable],
    outputs: &Outputs,
    next: u64,
) -> Result<(Frames, Reach, Checkpoint), CommitFault>
    requires set_up { IsSetUp setup.now }
    requires sized { length stores.now ≡ length setup.now.stores }
    requires changelogs { length logs.now.changelogs.items ≡ length setup.now.stores }
    requires outputs { length logs.now.outputs.items ≡ length outputs.now.unsent }
    ensures planned { IfOk result
        (λ r. PlansCommit setup.now logs.now
        (record {
          stores = stores.now;
          unsent = outputs.now.unsent;
          cleared
              = outputs.now.cleared;
        }) next r.0 r.2) }
    ensures reaches { IfOk result (λ r. Reaches logs.now r.0 r.1) }
    ensures limit { IfErr result
        (λ e. e ≡ CommitFault.Limit
        → LacksRoomFor setup.now logs.now
        (record {
          stores = stores.now;
          unsent = outputs.now.unsent;
          cleared
              = outputs.now.cleared;
        }) next) }
    ensures fault { IfErr result (λ e. (e ≡ CommitFault.NoMemory) ⊎ (e ≡ CommitFault.Limit)) }
{
    let (frames, made) = plan_frames(alloc, setup, logs, stores, outputs, next)?;
    match logs.reach(alloc, &frames) {
        Ok(reach) => Ok((frames, reach, made)),
        Err(fault) => Err(fault),
    }
}
