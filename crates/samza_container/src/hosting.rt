// A task on the host's disks: handed out, run on, and given back.
ghost use Rattle.std.specs.Prelude.{◌≡◌, ◌≢◌, ◌≤◌, None, IfErr};
ghost use Rattle.samza_model.specs.Counters.{Rose};
ghost use Rattle.disk_model.specs.Handles.{NoneOut, SameAt};
ghost use Rattle.disk_model.specs.declared.names.DiskName.{DiskName as DiskNameValue};
ghost use Rattle.core_steps.specs.Setups.{IsRunnable};
ghost use Rattle.unit_logs.specs.Standing.{IsSetUp};
ghost use Rattle.container_texts.specs.Statuses.{status_of};
ghost use Rattle.task_runs.specs.Tells.{TellsOf};
ghost use Rattle.samza_container.specs.Done.{TaskDone};

use crate::faults::of_host;
use container_texts::{RunFault, TaskReport};
use disk_model::{DiskName, Host};
use edge_io::Turns;
use samza_model::{Job, Setup};
use std::alloc::Global;
use task_runs::run_task;

/// Runs a task on its disk, over the partition of its input, gives back what was handed out, and answers what is told of the
/// task.
pub(crate) fn run_on_host<H: Host, J: Job, T: Turns>(
    alloc: Global,
    job: &J,
    setup: Setup,
    task: &DiskName,
    input: &DiskName,
    partition: u32,
    host: &mut H,
    turns: &mut T,
) -> Result<TaskReport, RunFault>
    requires set_up { IsSetUp setup }
    requires runnable { IsRunnable setup }
    requires windowless { setup.window_ms ≡ None }
    requires none_out { NoneOut (H.disks_out host.old) (H.shelves_out host.old) }
    requires apart { input.now ≢ task.now }
    ensures done { H.tells
        → TaskDone H.folder H.images H.images_since H.call_number host.old host.new task.now
        (J.meaning (J.plain job.now)) setup ((H.folder host.old).disks input.now partition)
        result }
    ensures told { IfErr result (TellsOf setup) }
    ensures others { H.tells → (n : DiskNameValue) → n ≢ task.now
        → SameAt H.folder H.images H.images_since H.call_number host.old host.new n }
    ensures entered { H.entered host.new ≡ H.entered host.old }
    ensures back { NoneOut (H.disks_out host.new) (H.shelves_out host.new) }
    ensures device { IfErr result (λ e. status_of e ≡ 4
        → Rose (H.fault_count host.old) (H.fault_count host.new)) }
    ensures later { H.fault_count host.old ≤ H.fault_count host.new }
{
    let disk = match host.lend(alloc, task) {
        Ok(disk) => disk,
        Err(fault) => return Err(of_host(fault)),
    };
    let shelf = match host.shelf(alloc, input, partition) {
        Ok(shelf) => shelf,
        Err(fault) => {
            host.take_disk(task, disk);
            return Err(of_host(fault));
        }
    };
    let (done, disk, shelf) = run_task(alloc, job, setup, disk, shelf, turns);
    host.take_shelf(shelf);
    host.take_disk(task, disk);
    done
}
