// What is looked at before a task runs: the folder, its configuration, and the partitions of its input.
ghost use Rattle.std.specs.Prelude.{◌≡◌, ◌≤◌, ◌⊎◌, None, Some, Ok, IfErr, IfOk, OnOk};
ghost use Rattle.samza_model.specs.Counters.{Rose};
ghost use Rattle.disk_model.specs.Handles.{AsMany, SameAt};
ghost use Rattle.disk_model.specs.declared.names.DiskName.{DiskName as DiskNameValue};
ghost use Rattle.job_config.specs.Bounds.{IsBounded};
ghost use Rattle.core_steps.specs.Setups.{IsRunnable};
ghost use Rattle.unit_logs.specs.Standing.{IsSetUp};
ghost use Rattle.samza_container.specs.Causes.{ends_with, HasEntered, IsOfFolder, IsReady, WhyNotOne, WhyNotReady};
ghost use Rattle.container_texts.specs.Statuses.{status_of};
ghost use Rattle.samza_container.specs.Configured.{configured, input_disk};
ghost use Rattle.samza_container.specs.NotBuilt.{first_not_built};
ghost use Rattle.shipped_jobs.specs.WordCount.{word_count};

use crate::config_text::folder_config;
use crate::faults::of_host;
use crate::setups::{input_of, setup_of};
use container_texts::RunFault;
use disk_model::Host;
use job_config::JobConfig;
use samza_model::{Bin, Setup};
use std::alloc::Global;

/// Enters the folder, and reads its configuration, of which all is built.
fn configure<H: Host>(alloc: Global, folder: &str, host: &mut H) -> Result<JobConfig, RunFault>
    ensures configured { IfOk result (λ c. H.tells → configured (H.folder host.old).text ≡ Ok c) }
    ensures bounded { IfOk result IsBounded }
    ensures built { IfOk result (λ c. first_not_built c ≡ None) }
    ensures why { IfErr result (λ e. H.tells → WhyNotReady (H.folder host.old) e) }
    ensures of_folder { IfErr result IsOfFolder }
    ensures disks { H.tells → (n : DiskNameValue)
        → SameAt H.folder H.images H.images_since H.call_number host.old host.new n }
    ensures disks_out { AsMany (H.disks_out host.old) (H.disks_out host.new) }
    ensures shelves_out { AsMany (H.shelves_out host.old) (H.shelves_out host.new) }
    ensures device { IfErr result (λ e. status_of e ≡ 4
        → Rose (H.fault_count host.old) (H.fault_count host.new)) }
    ensures entered { HasEntered (ends_with result) → H.entered host.new ≡ Some folder.now }
    ensures later { H.fault_count host.old ≤ H.fault_count host.new }
{
    match host.enter(alloc, folder) {
        Ok(()) => {}
        Err(fault) => return Err(of_host(fault)),
    }
    let text = match host.text(alloc) {
        Ok(text) => text,
        Err(fault) => return Err(of_host(fault)),
    };
    folder_config(alloc, text)
}

/// Refuses what isn't built yet.
fn not_built(alloc: Global, key: &[u8]) -> RunFault
    ensures { (result ≡ RunFault.NotBuilt key.now) ⊎ (result ≡ RunFault.NoMemory) }
{
    match Bin::of(alloc, key) {
        Ok(key) => RunFault::NotBuilt { key },
        Err(_) => RunFault::NoMemory,
    }
}

/// Looks whether a setup's input has one partition.
fn check_partitions<H: Host>(alloc: Global, setup: &Setup, host: &mut H) -> Result<(), RunFault>
    requires { IsSetUp setup.now }
    ensures one { OnOk result (H.tells → (H.folder host.old).files (input_disk setup.now) ≡ 1) }
    ensures why { IfErr result (λ e. H.tells
        → WhyNotOne ((H.folder host.old).files (input_disk setup.now)) e) }
    ensures of_folder { IfErr result IsOfFolder }
    ensures disks { H.tells → (n : DiskNameValue)
        → SameAt H.folder H.images H.images_since H.call_number host.old host.new n }
    ensures disks_out { AsMany (H.disks_out host.old) (H.disks_out host.new) }
    ensures shelves_out { AsMany (H.shelves_out host.old) (H.shelves_out host.new) }
    ensures device { IfErr result (λ e. status_of e ≡ 4
        → Rose (H.fault_count host.old) (H.fault_count host.new)) }
    ensures entered { H.entered host.new ≡ H.entered host.old }
    ensures later { H.fault_count host.old ≤ H.fault_count host.new }
{
    let input = input_of(setup);
    match host.partitions(alloc, &input.system, &input.stream) {
        Ok(0) => Err(RunFault::NoPartition),
        Ok(1) => Ok(()),
        Ok(_) => Err(not_built(alloc, b"task.inputs")),
        Err(fault) => Err(of_host(fault)),
    }
}

/// The setup of the folder's task, if the folder can be run.
pub(crate) fn prepare<H: Host>(alloc: Global, folder: &str, host: &mut H) -> Result<Setup, RunFault>
    ensures set_up { IfOk result IsSetUp }
    ensures runnable { IfOk result IsRunnable }
    ensures windowless { IfOk result (λ s. s.window_ms ≡ None) }
    ensures ready { IfOk result (λ s. H.tells → IsReady (H.folder host.old) word_count s) }
    ensures why { IfErr result (λ e. H.tells → WhyNotReady (H.folder host.old) e) }
    ensures of_folder { IfErr result IsOfFolder }
    ensures disks { H.tells → (n : DiskNameValue)
        → SameAt H.folder H.images H.images_since H.call_number host.old host.new n }
    ensures disks_out { AsMany (H.disks_out host.old) (H.disks_out host.new) }
    ensures shelves_out { AsMany (H.shelves_out host.old) (H.shelves_out host.new) }
    ensures device { IfErr result (λ e. status_of e ≡ 4
        → Rose (H.fault_count host.old) (H.fault_count host.new)) }
    ensures entered { HasEntered (ends_with result) → H.entered host.new ≡ Some folder.now }
    ensures later { H.fault_count host.old ≤ H.fault_count host.new }
{
    let config = match configure(alloc, folder, host) {
        Ok(config) => config,
        Err(fault) => return Err(fault),
    };
    let setup = match setup_of(alloc, &config) {
        Ok(setup) => setup,
        Err(_) => return Err(RunFault::NoMemory),
    };
    match check_partitions(alloc, &setup, host) {
        Ok(()) => Ok(setup),
        Err(fault) => Err(fault),
    }
}
