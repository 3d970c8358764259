// The program's top call.
ghost use Rattle.std.specs.Prelude.{◌≡◌, ◌≢◌, ◌≤◌, ◌⊎◌, ◌∷◌, [], ℕ, List, Some, None, IfErr, OnOk, map, string_bytes};
ghost use Rattle.samza_model.specs.Counters.{Rose};
ghost use Rattle.disk_model.specs.Handles.{NoneOut, SameAt};
ghost use Rattle.disk_model.specs.declared.names.DiskName.{DiskName as DiskNameValue};
ghost use Rattle.shipped_jobs.specs.WordCount.{word_count};
ghost use Rattle.core_steps.specs.Setups.{IsRunnable};
ghost use Rattle.unit_logs.specs.Standing.{IsSetUp};
ghost use Rattle.task_runs.specs.Tells.{TellsOf};
ghost use Rattle.samza_container.specs.Causes.{HasEntered, NamesTask, Runnable};
ghost use Rattle.samza_container.specs.Configured.{input_disk, task_disk};
ghost use Rattle.samza_container.specs.Endings.{CutsLine, CutsReport, EndsWell, NothingFails, StopsFor};
ghost use Rattle.container_texts.specs.Printing.{Tried};
ghost use Rattle.samza_container.specs.Done.{FolderDone, TaskDone};
ghost use Rattle.container_texts.specs.Printing.{sink_line};
ghost use Rattle.samza_container.specs.Naming.{IsCause, IsOf};
ghost use Rattle.samza_container.specs.Stops.{answered, stops_with};
ghost use Rattle.container_texts.specs.Words.{IsCommand};

use crate::hosting::run_on_host;
use crate::preparing::prepare;
use crate::setups::{input_disk, inputs_of};
use container_texts::{RunFault, Stopped, TaskReport, put_fault, put_report, read_words};
use disk_model::{DiskName, Host};
use edge_io::{Sink, Turns};
use samza_model::Setup;
use shipped_jobs::WordCount;
use std::alloc::Global;

/// Runs the one task that is set up so, and answers what is told of it.
fn run_set_up<H: Host, T: Turns>(
    alloc: Global,
    setup: Setup,
    host: &mut H,
    turns: &mut T,
) -> Result<TaskReport, Stopped>
    requires set_up { IsSetUp setup }
    requires runnable { IsRunnable setup }
    requires windowless { setup.window_ms ≡ None }
    requires none_out { NoneOut (H.disks_out host.old) (H.shelves_out host.old) }
    ensures done { H.tells
        → TaskDone H.folder H.images H.images_since H.call_number host.old host.new task_disk
        word_count setup ((H.folder host.old).disks (input_disk setup) 0) (answered result) }
    ensures told { IfErr result (λ s. TellsOf setup s.fault) }
    ensures named { IfErr result (λ s. NamesTask s.fault → IsOf setup s.task s.inputs.items) }
    ensures others { H.tells → (n : DiskNameValue) → n ≢ task_disk
        → SameAt H.folder H.images H.images_since H.call_number host.old host.new n }
    ensures entered { H.entered host.new ≡ H.entered host.old }
    ensures back { NoneOut (H.disks_out host.new) (H.shelves_out host.new) }
    ensures device { stops_with result ≡ 4
        → Rose (H.fault_count host.old) (H.fault_count host.new) }
    ensures later { H.fault_count host.old ≤ H.fault_count host.new }
{
    let (Ok(input), Ok(inputs)) = (input_disk(alloc, &setup), inputs_of(alloc, &setup)) else {
        return Err(Stopped::before_task(alloc, RunFault::NoMemory));
    };
    let name = setup.task;
    let task = DiskName::Task(0);
    match run_on_host(alloc, &WordCount, setup, &task, &input, 0, host, turns) {
        Ok(report) => Ok(report),
        Err(fault) => Err(Stopped {
            fault,
            task: name,
            inputs,
        }),
    }
}

/// Runs a command: its words, the folder, the configuration, the input's partitions, and then the task. It answers what is told
/// of the task.
fn run<H: Host, T: Turns>(
    alloc: Global,
    words: &[String],
    host: &mut H,
    turns: &mut T,
) -> Result<TaskReport, Stopped>
    requires none_out { NoneOut (H.disks_out host.old) (H.shelves_out host.old) }
    ensures done { H.tells
        → FolderDone H.folder H.images H.images_since H.call_number
        (map string_bytes words.now) host.old host.new (answered result) }
    ensures command { OnOk result (IsCommand (map string_bytes words.now)) }
    ensures cause { IfErr result (λ s. IsCause H.tells (map string_bytes words.now)
        (H.folder host.old) s.task s.inputs.items s.fault) }
    ensures no_command { (IsCommand (map string_bytes words.now) → ⊥) → stops_with result ≡ 2 }
    ensures refused { stops_with result ≡ 2 → (IsCommand (map string_bytes words.now) → ⊥)
        × (host.new ≡ host.old) }
    ensures others { H.tells → (n : DiskNameValue) → n ≢ task_disk
        → SameAt H.folder H.images H.images_since H.call_number host.old host.new n }
    ensures entered { HasEntered (stops_with result) → (word folder : List ℕ)
        → map string_bytes words.now ≡ word ∷ folder ∷ [] → H.entered host.new ≡ Some folder }
    ensures back { NoneOut (H.disks_out host.new) (H.shelves_out host.new) }
    ensures device { stops_with result ≡ 4
        → Rose (H.fault_count host.old) (H.fault_count host.new) }
    ensures later { H.fault_count host.old ≤ H.fault_count host.new }
{
    let folder = match read_words(words) {
        Ok(folder) => folder,
        Err(place) => return Err(Stopped::before_task(alloc, RunFault::Words { place })),
    };
    match prepare(alloc, folder, host) {
        Ok(setup) => run_set_up(alloc, setup, host, turns),
        Err(fault) => Err(Stopped::before_task(alloc, fault)),
    }
}

/// Runs a command on a host's folder, prints what came of it, and answers the status with which the program ends.
///
/// The words are those behind the program's name: `run` and a folder. `turns` picks, of the callbacks in flight, whose act comes
/// next. The status is 0 where the job did every message of the input that the task's checkpoint didn't cover, or those up to
/// where it asked for a shutdown, the next checkpoint stands, and `out` received the report. `RunFault::status` lists the
/// others, with which `err` received the fault's line, and 7 comes where `out` or `err` failed.
pub fn samza_main<H: Host, T: Turns, W: Sink, E: Sink>(
    alloc: Global,
    words: &[String],
    host: &mut H,
    turns: &mut T,
    out: &mut W,
    err: &mut E,
) -> u8
    requires none_out { NoneOut (H.disks_out host.old) (H.shelves_out host.old) }

    // It ends well, for a cause, or unheard. Each tells what became of the folder's task: of one list of events, which the task
    // made if it was opened, what stands in its files and what a crash at any moment of the run leaves of them.
    ensures well { result ≡ 0
        → EndsWell H.tells W.tells H.folder H.images H.images_since H.call_number W.received
        (map string_bytes words.now) host.old host.new out.old out.new }
    ensures stopped { result ≢ 0 → result ≢ 7
        → StopsFor H.tells E.tells H.folder H.images H.images_since H.call_number E.received
        (map string_bytes words.now) host.old host.new result err.old err.new }
    ensures unheard { result ≡ 7
        → (CutsReport H.tells W.tells H.folder H.images H.images_since H.call_number W.received
        W.fault_count (map string_bytes words.now) host.old host.new out.old out.new
        × Tried E.tells sink_line (E.received err.old) (E.received err.new) (E.fault_count err.old)
        (E.fault_count err.new))
        ⊎ ((out.new ≡ out.old)
        × CutsLine H.tells E.tells H.folder H.images H.images_since H.call_number E.received
        E.fault_count (map string_bytes words.now) host.old host.new err.old err.new) }
    ensures out_kept { result ≢ 0 → result ≢ 7 → out.new ≡ out.old }
    ensures err_kept { result ≡ 0 → err.new ≡ err.old }

    // A folder that can be run is run, where no count of faults rises and memory isn't refused.
    ensures complete { H.tells → IsCommand (map string_bytes words.now)
        → Runnable (H.folder host.old)
        → NothingFails H.fault_count W.fault_count E.fault_count host.old host.new out.old out.new
        err.old err.new → (result ≡ 0) ⊎ (result ≡ 8) }

    // Words that are no command leave every disk as it was; else the folder that the words name is entered.
    ensures no_command { (IsCommand (map string_bytes words.now) → ⊥) → (result ≡ 2)
        ⊎ ((result ≡ 7) ⊎ (result ≡ 8)) }
    ensures command { result ≡ 2 → IsCommand (map string_bytes words.now) → ⊥ }
    ensures untouched { (IsCommand (map string_bytes words.now) → ⊥) → host.new ≡ host.old }
    ensures entered { HasEntered result → (word folder : List ℕ)
        → map string_bytes words.now ≡ word ∷ folder ∷ [] → H.entered host.new ≡ Some folder }

    // What else it leaves.
    ensures others { H.tells → (n : DiskNameValue) → n ≢ task_disk
        → SameAt H.folder H.images H.images_since H.call_number host.old host.new n }
    ensures back { NoneOut (H.disks_out host.new) (H.shelves_out host.new) }
    ensures device { result ≡ 4 → Rose (H.fault_count host.old) (H.fault_count host.new) }
    ensures later { H.fault_count host.old ≤ H.fault_count host.new }
    ensures later_sinks { (W.fault_count out.old ≤ W.fault_count out.new)
        × (E.fault_count err.old ≤ E.fault_count err.new) }
{
    match run(alloc, words, host, turns) {
        Ok(report) => put_report(alloc, &report, out, err),
        Err(stopped) => put_fault(alloc, &stopped, err),
    }
}
