// How far a task's logs reach once a commit's frames are appended.
ghost use Rattle.std.specs.Prelude.{◌≡◌, ◌<◌, ◌^◌, ◌⊎◌, [], length, IfOk, IfErr, OnOk};
ghost use Rattle.std.specs.List.{AllByRecursion};
ghost use Rattle.unit_logs.specs.Planned.{lens_of};
ghost use Rattle.unit_logs.specs.Room.{EachReaches, OneLacksRoom};
ghost use Rattle.unit_logs.specs.Written.{IsNoRoomFor, Reaches};

use crate::CommitFault;
use crate::writing::{Logs, Reach};
use core_plans::Frames;
use log_frame::Frame;
use samza_model::{Items, NoMemory, put};
use std::alloc::Global;
use std::slice;
use topic_log::{Extent, Log};

/// No extent yet, and memory for those of so many logs.
fn no_extents(alloc: Global, logs: usize) -> Result<Vec<Extent>, NoMemory>
    ensures { IfOk result (λ extents. extents.items ≡ []) }
{
    Ok(Vec::with_capacity(alloc, logs)?)
}

/// Puts into an empty list how far each log reaches once its frames are appended.
fn reach_each(
    extents: &mut Vec<Extent>,
    logs: &[Log],
    frames: &[Items<Frame>],
) -> Result<(), CommitFault>
    requires none { extents.old.items ≡ [] }
    requires as_many { length frames.now ≡ length logs.now }
    ensures reaches { OnOk result (EachReaches logs.now frames.now extents.new.items) }
    ensures limit { IfErr result (λ e. e ≡ CommitFault.Limit → OneLacksRoom logs.now frames.now) }
    ensures fault { IfErr result (λ e. (e ≡ CommitFault.NoMemory) ⊎ (e ≡ CommitFault.Limit)) }
{
    for i in 0..logs.len() {
        match logs[i].plan(frames[i].as_slice()) {
            Some(extent) => put(extents, extent)?,
            None => return Err(CommitFault::Limit),
        }
    }
    Ok(())
}

/// How many records each log has.
fn len_each(alloc: Global, logs: &[Log]) -> Result<Vec<u64>, NoMemory>
    ensures lens { IfOk result (λ v. v.items ≡ lens_of logs.now) }
    ensures below { IfOk result (λ v. AllByRecursion (λ n. n < 2 ^ 63) v.items) }
{
    let mut lens = Vec::new(alloc);
    for i in 0..logs.len() {
        put(&mut lens, logs[i].len())?;
    }
    Ok(lens)
}

impl Logs {
    /// The number of records of each changelog.
    pub fn lens(&self, alloc: Global) -> Result<Vec<u64>, NoMemory>
        ensures lens { IfOk result (λ v. v.items ≡ lens_of self.now.changelogs.items) }
        ensures below { IfOk result (λ v. AllByRecursion (λ n. n < 2 ^ 63) v.items) }
    {
        len_each(alloc, self.changelogs.as_slice())
    }

    /// How far the logs reach once the frames are appended. All memory is taken before `Limit` comes, which comes where one
    /// of the files would pass 2^40 bytes.
    pub fn reach(&self, alloc: Global, frames: &Frames) -> Result<Reach, CommitFault>
        requires changes { length frames.now.stores ≡ length self.now.changelogs.items }
        requires sends { length frames.now.outputs ≡ length self.now.outputs.items }
        ensures reaches { IfOk result (λ reach. Reaches self.now frames.now reach) }
        ensures limit { IfErr result
            (λ e. e ≡ CommitFault.Limit → IsNoRoomFor self.now frames.now) }
        ensures fault { IfErr result (λ e. (e ≡ CommitFault.NoMemory) ⊎ (e ≡ CommitFault.Limit)) }
    {
        let mut sends = no_extents(alloc, self.outputs.len())?;
        let mut changes = no_extents(alloc, self.changelogs.len())?;
        reach_each(
            &mut sends,
            self.outputs.as_slice(),
            frames.outputs.as_slice(),
        )?;
        reach_each(
            &mut changes,
            self.changelogs.as_slice(),
            frames.stores.as_slice(),
        )?;
        match self.marks.plan(slice::from_ref(&frames.checkpoint)) {
            Some(mark) => Ok(Reach {
                sends,
                changes,
                mark,
            }),
            None => Err(CommitFault::Limit),
        }
    }
}
