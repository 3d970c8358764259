// Where a core begins: its lanes at their starts, no callback, and its stores as they were restored.
ghost use Rattle.std.specs.Prelude.{ℕ, ◌≡◌, ◌^◌, ◌<◌, ◌≤◌, [], All, length, IfOk, slice_index_or};
ghost use Rattle.samza_model.specs.Ran.{fresh};
ghost use Rattle.kv_store.specs.Tracked.{AreWithinLimits};
ghost use Rattle.core_steps.specs.Begun.{AreClean, AreUnsent, IsGiven};
ghost use Rattle.core_steps.specs.Cores.{Outside, Stands};
ghost use Rattle.core_steps.specs.Held.{contents_of};
ghost use Rattle.core_steps.specs.Lanes.{between};
ghost use Rattle.core_steps.specs.Laws.{IsFresh};
ghost use Rattle.core_steps.specs.Setups.{IsRunnable};

use crate::cores::Core;
use core_parts::{Begun, Journal, begin};
use kv_store::Table;
use samza_model::{Items, NoMemory, Setup};
use std::alloc::Global;
use window_timer::Times;

impl Core {
    /// A core of a task that begins at this moment, in milliseconds: each input at its start, behind whose end it has no
    /// message, and each store with its table, in the setup's order; and of which the last mark has this number, 0 where
    /// there is none. The one error is want of memory.
    pub fn new(
        alloc: Global,
        setup: Setup,
        starts: Vec<u64>,
        ends: Vec<u64>,
        last: u64,
        tables: Items<Table>,
        moment: u64,
    ) -> Result<Core, NoMemory>
        requires runnable { IsRunnable setup }
        requires starts { length starts.items ≡ length setup.inputs }
        requires ends { length ends.items ≡ length setup.inputs }
        requires within { (p : ℕ) → p < length starts.items
            → slice_index_or starts.items p 0 ≤ slice_index_or ends.items p 0 }
        requires few { between starts.items ends.items < 2 ^ 63 }
        requires tables { length tables ≡ length setup.stores }
        requires limits { All AreWithinLimits tables }
        ensures fresh { IfOk result IsFresh }
        ensures given { IfOk result (IsGiven setup starts.items ends.items last moment) }
        ensures contents { IfOk result (λ c. contents_of c.held.stores ≡ tables) }
        ensures clean { IfOk result (λ c. AreClean c.held.stores) }
        ensures unsent { IfOk result (λ c. AreUnsent (length setup.outputs) c.held) }
        ensures stands { IfOk result (λ c. (o : Outside) → o.state ≡ fresh setup tables
            → Stands o c [] 0) }
    {
        let Begun {
            lanes,
            callbacks,
            holdings,
        } = begin(alloc, &setup, starts.as_slice(), tables)?;
        let times = Times::new(setup.commit_ms, setup.window_ms, moment);
        Ok(Core {
            alloc,
            setup,
            starts,
            ends,
            lanes,
            callbacks,
            holdings,
            failed: None,
            window: None,
            journal: Journal::new(alloc),
            times,
            asked: None,
            last,
            spare: None,
        })
    }
}
