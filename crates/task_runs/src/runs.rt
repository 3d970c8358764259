// One task from its opening to its end, on a disk and a shelf that are at hand.
ghost use Rattle.std.specs.Prelude.{◌≡◌, ◌≤◌, ◌<◌, ◌⊎◌, ◌∷◌, ℕ, [], All, length, None, IfErr, vec_len, vec_capacity};
ghost use Rattle.samza_model.specs.Counters.{Rose};
ghost use Rattle.samza_model.specs.Histories.{History};
ghost use Rattle.disk_model.specs.Images.{LeavesOnly};
ghost use Rattle.core_steps.specs.Cores.{IsCore};
ghost use Rattle.core_steps.specs.Setups.{IsRunnable};
ghost use Rattle.restore_trim.specs.Crashes.{OpeningLeaves};
ghost use Rattle.unit_logs.specs.Standing.{IsSetUp};
ghost use Rattle.unit_steps.specs.Units.{UnitValue};
ghost use Rattle.run_loop.specs.Runs.{IsGoing, Runs};
ghost use Rattle.run_loop.specs.Stops.{WhyStopped};
ghost use Rattle.run_loop.specs.declared.stops.Stop.{Stop as StopValue};
ghost use Rattle.container_texts.specs.Statuses.{status_of};
ghost use Rattle.task_runs.specs.Answers.{Says};
ghost use Rattle.task_runs.specs.Tells.{TellsOf};
ghost use Rattle.task_runs.specs.Worked.{Worked, WhyNotStarted};

use crate::answers::answer;
use container_texts::{RunFault, TaskReport};
use disk_model::{Disk, Shelf};
use edge_io::Turns;
use event_unit::TaskUnit;
use run_loop::{RunEnd, run_inline};
use samza_model::{Job, Setup};
use std::alloc::Global;

/// Runs the one unit, and answers what is told of it.
fn run_one<'j, J: Job, D: Disk, S: Shelf, T: Turns>(
    alloc: Global,
    units: Vec<TaskUnit<'j, J, D, S>>,
    turns: &mut T,
) -> (Result<TaskReport, RunFault>, TaskUnit<'j, J, D, S>)
    requires one { length units.items ≡ 1 }
    requires going { All IsGoing units.items }
    ensures ran { (old : UnitValue J.Plain D S) → units.entry.items ≡ old ∷ []
        → Runs J.meaning D.tells D.reads D.call_number D.images D.images_since D.name
        D.fault_count old result.1 }
    ensures says { (old : UnitValue J.Plain D S) → units.entry.items ≡ old ∷ []
        → (stop : StopValue) × WhyStopped D.tells D.reads D.fault_count old result.1 stop
        × Says result.1 stop result.0 }
    ensures core { IsCore result.1.core }
{
    let RunEnd { units, stop } = run_inline(units, turns);
    let mut units = units;
    let unit = units.swap_remove(0);
    let _ = unit.setup();
    let done = answer(alloc, &unit, stop);
    (done, unit)
}

/// Opens a task, runs it to its end, and answers what is told of it. The disk and the shelf come back.
///
/// It ends at its input's end, or where an act asked for a shutdown, with all that it did committed. Else it answers why it
/// wasn't opened or stopped before; nothing is committed behind a failure.
pub fn run_task<J: Job, D: Disk, S: Shelf, T: Turns>(
    alloc: Global,
    job: &J,
    setup: Setup,
    disk: D,
    shelf: S,
    turns: &mut T,
) -> (Result<TaskReport, RunFault>, D, S)
    requires set_up { IsSetUp setup }
    requires runnable { IsRunnable setup }
    requires windowless { setup.window_ms ≡ None }
    // It wasn't opened, and a crash leaves files that restore as before; or its answer, its files and what a crash leaves of them
    // are those of one list of events.
    ensures done { D.tells → S.tells
        → (WhyNotStarted setup (D.reads disk) (S.bytes shelf) result.0
        × LeavesOnly D.call_number D.images D.images_since disk result.1 (OpeningLeaves setup))
        ⊎ ((t : History) × Worked D.call_number D.images D.images_since disk result.1
        (J.meaning (J.plain job.now)) setup (S.bytes shelf) (D.reads disk) (D.reads result.1)
        result.0 t) }
    ensures told { IfErr result.0 (TellsOf setup) }
    ensures device { IfErr result.0 (λ e. status_of e ≡ 4
        → Rose (D.fault_count disk) (D.fault_count result.1)
        ⊎ Rose (S.fault_count shelf) (S.fault_count result.2)) }
    ensures disk { (D.name result.1 ≡ D.name disk) × (D.fault_count disk ≤ D.fault_count result.1) }
    ensures shelf { (S.name result.2 ≡ S.name shelf)
        × (S.fault_count shelf ≤ S.fault_count result.2) }
{
    let mut units = Vec::new(alloc);
    match units.reserve(1) {
        Ok(()) => {}
        Err(_) => return (Err(RunFault::NoMemory), disk, shelf),
    }
    let unit = match TaskUnit::open_unit(alloc, job, setup, disk, shelf, 0) {
        Ok(unit) => unit,
        Err((fault, disk, shelf)) => return (Err(RunFault::NotOpened(fault)), disk, shelf),
    };
    units.push_reserved(unit);
    let (done, unit) = run_one(alloc, units, turns);
    let (disk, shelf) = unit.close();
    (done, disk, shelf)
}
