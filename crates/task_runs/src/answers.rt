// What a run answers.
ghost use Rattle.std.specs.Prelude.{◌≡◌, ℕ, true, is_some};
ghost use Rattle.run_loop.specs.declared.stops.Stop.{Stop as StopValue};
ghost use Rattle.task_runs.specs.Answers.{IsEnd, Says};

use container_texts::{RunFault, TaskReport, task_report};
use disk_model::{Disk, Shelf};
use event_unit::TaskUnit;
use run_loop::Stop;
use samza_model::Job;
use std::alloc::Global;

/// The report of a unit that came to an end.
fn told_of<'j, J: Job, D: Disk, S: Shelf>(
    alloc: Global,
    unit: &TaskUnit<'j, J, D, S>,
) -> Result<TaskReport, RunFault>
    ensures { (stop : StopValue) → IsEnd stop → Says unit.now stop result }
{
    match task_report(alloc, unit) {
        Ok(report) => Ok(report),
        Err(_) => Err(RunFault::NoMemory),
    }
}

/// The failure of a unit that has one.
fn failure_of<'j, J: Job, D: Disk, S: Shelf>(
    unit: &TaskUnit<'j, J, D, S>,
) -> Result<TaskReport, RunFault>
    requires { is_some unit.now.core.failed ≡ true }
    ensures { (place : ℕ) → Says unit.now (StopValue.Failed place) result }
{
    match unit.status().failed {
        Some(failure) => Err(RunFault::Failed(failure)),
        None => unreachable!(),
    }
}

/// What a run that stopped so answers of its unit: its report, or why it has none.
pub(crate) fn answer<'j, J: Job, D: Disk, S: Shelf>(
    alloc: Global,
    unit: &TaskUnit<'j, J, D, S>,
    stop: Stop,
) -> Result<TaskReport, RunFault>
    requires failed { (place : ℕ) → stop ≡ Stop.Failed place
        → is_some unit.now.core.failed ≡ true }
    ensures { Says unit.now stop result }
{
    match stop {
        Stop::Ended => told_of(alloc, unit),
        Stop::Asked => told_of(alloc, unit),
        Stop::Failed { .. } => failure_of(unit),
        Stop::Device => Err(RunFault::Device),
        Stop::Limit => Err(RunFault::Limit),
        Stop::NoMemory => Err(RunFault::NoMemory),
    }
}
