// The plan of a core's commit.
ghost use Rattle.std.specs.Prelude.{◌≡◌, ◌<◌, ◌+◌, ◌-◌, ◌^◌, length, map, Some, None, Err, IfOk, IfErr};
ghost use Rattle.std.specs.List.{AllByRecursion};
ghost use Rattle.core_steps.specs.Cores.{IsCore};
ghost use Rattle.core_plans.specs.Plans.{PlansMark, PlansSends, PlansStores};
ghost use Rattle.task_core.specs.declared.faults.PlanFault.{PlanFault as PlanFaultValue};
ghost use Rattle.task_core.specs.Plans.{commit_refusal, is_busy, IsKept, IsPlan, MarksNow};

use crate::cores::Core;
use crate::faults::PlanFault;
use crate::plans::{Kept, Plan};
use core_plans::Frames;
use offset_window::OffsetWindow;
use samza_model::{Checkpoint, Items, NoMemory, put};
use std::alloc::Global;

/// The first offset of each window that isn't complete.
fn lows_of(alloc: Global, lanes: &[OffsetWindow]) -> Result<Vec<u64>, NoMemory>
    ensures { IfOk result (λ v. v.items ≡ map (λ w. w.low) lanes.now) }
{
    let mut lows = Vec::new(alloc);
    for i in 0..lanes.len() {
        put(&mut lows, lanes[i].low())?;
    }
    Ok(lows)
}

impl Core {
    /// Whether callbacks are in flight, and the setup allows no commit then.
    fn is_busy(&self) -> bool
        ensures { result ≡ is_busy self.now }
    {
        !self.setup().async_commit && 0 < self.in_flight()
    }

    /// Why there can be no commit now.
    fn commit_refusal(&self) -> Option<PlanFault>
        ensures { result ≡ commit_refusal self.now }
    {
        if self.is_failed() {
            Some(PlanFault::Failed)
        } else if self.is_windowing() {
            Some(PlanFault::Windowing)
        } else if self.is_busy() {
            Some(PlanFault::Busy {
                in_flight: self.in_flight(),
            })
        } else {
            None
        }
    }

    /// The first offset of each input that isn't complete.
    fn lows(&self) -> Result<Vec<u64>, NoMemory>
        ensures { IfOk result (λ v. v.items ≡ map (λ w. w.low) self.now.lanes) }
    {
        lows_of(self.alloc(), self.lanes())
    }

    /// What a commit now appends, and the checkpoint that it makes.
    fn plan_frames(&self, lens: &[u64]) -> Result<(Frames, Checkpoint), NoMemory>
        requires lens { length lens.now ≡ length self.now.setup.stores }
        requires below { AllByRecursion (λ n. n < 2 ^ 63) lens.now }
        requires last { self.now.last < 2 ^ 64 - 1 }
        ensures stores { IfOk result (λ r. PlansStores self.now.setup lens.now self.now.held.stores
            r.0.stores r.1.stores) }
        ensures sends { IfOk result (λ r. PlansSends self.now.held.unsent r.0.outputs) }
        ensures mark { IfOk result (λ r. PlansMark self.now.setup (map (λ w. w.low) self.now.lanes)
            (self.now.last + 1) r.0.checkpoint r.1) }
        ensures core { IsCore self.now }
    {
        let last = self.last();
        let lows = self.lows()?;
        core_plans::plan(
            self.alloc(),
            self.setup(),
            lows.as_slice(),
            self.stores(),
            self.outputs(),
            lens,
            last + 1,
        )
    }

    /// What the core keeps behind a mark now.
    fn kept_now(&self) -> Result<Kept, NoMemory>
        ensures { IfOk result (λ kept. IsKept self.now kept) }
    {
        let uncovered = self.uncovered()?;
        let events = self.kept(uncovered.as_slice())?;
        Ok(Kept {
            uncovered: Items::from_vec(uncovered),
            events,
        })
    }

    fn make_plan(&self, lens: &[u64]) -> Result<Plan, NoMemory>
        requires lens { length lens.now ≡ length self.now.setup.stores }
        requires below { AllByRecursion (λ n. n < 2 ^ 63) lens.now }
        requires last { self.now.last < 2 ^ 64 - 1 }
        ensures { IfOk result (λ plan. IsPlan self.now lens.now plan) }
    {
        let kept = self.kept_now()?;
        let (frames, mark) = self.plan_frames(lens)?;
        Ok(Plan { frames, mark, kept })
    }

    /// A commit, made in memory: what it appends, the checkpoint that it makes, and what the core keeps behind it. Each
    /// changelog has as many records as `lens` says.
    ///
    /// `Failed` comes before `Windowing`, that before `Busy`, and `NoMemory` last.
    pub fn plan(&self, lens: &[u64]) -> Result<Plan, PlanFault>
        requires lens { length lens.now ≡ length self.now.setup.stores }
        requires below { AllByRecursion (λ n. n < 2 ^ 63) lens.now }
        requires last { self.now.last < 2 ^ 64 - 1 }
        ensures planned { IfOk result (λ plan. IsPlan self.now lens.now plan) }
        ensures marks { IfOk result (λ plan. MarksNow self.now plan.mark) }
        ensures refused { (e : PlanFaultValue) → commit_refusal self.now ≡ Some e → result ≡ Err e }
        ensures memory { commit_refusal self.now ≡ None
            → IfErr result (λ e. e ≡ PlanFault.NoMemory) }
    {
        match self.commit_refusal() {
            Some(fault) => Err(fault),
            None => {
                let plan = self.make_plan(lens)?;
                Ok(plan)
            }
        }
    }
}
