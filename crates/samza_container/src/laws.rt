// Laws of the definitions.
ghost use Rattle.std.specs.Prelude.{◌≡◌, ◌≢◌, ℕ, List, length, None};
ghost use Rattle.samza_model.specs.declared.messages.Ssp.{Ssp as SspValue};
ghost use Rattle.samza_model.specs.declared.messages.TaskName.{TaskName as TaskNameValue};
ghost use Rattle.samza_model.specs.declared.setups.Setup.{Setup};
ghost use Rattle.samza_model.specs.declared.turns.Failure.{Failure};
ghost use Rattle.samza_model.specs.Files.{Image};
ghost use Rattle.samza_model.specs.Histories.{History};
ghost use Rattle.samza_model.specs.Lawful.{end_at_input};
ghost use Rattle.samza_model.specs.Meaning.{Meaning};
ghost use Rattle.samza_model.specs.Ran.{Finished};
ghost use Rattle.disk_model.specs.Folders.{Folder};
ghost use Rattle.core_steps.specs.Setups.{IsRunnable};
ghost use Rattle.job_config.specs.declared.config.JobConfig.{JobConfig};
ghost use Rattle.job_config.specs.Bounds.{IsBounded};
ghost use Rattle.unit_logs.specs.Standing.{IsSetUp};
ghost use Rattle.container_texts.specs.declared.faults.RunFault.{RunFault as RunFaultValue};
ghost use Rattle.container_texts.specs.declared.faults.RunFault.TheVariants.{Limit};
ghost use Rattle.container_texts.specs.FaultText.{fault_text};
ghost use Rattle.container_texts.specs.Statuses.{status_of};
ghost use Rattle.container_texts.specs.Words.{IsCommand};
ghost use Rattle.task_runs.specs.Ends.{done_to};
ghost use Rattle.task_runs.specs.Runs.{TaskRan, given_of};
ghost use Rattle.samza_container.specs.Causes.{DoesOneByOne, Runnable, WhyStopped};
ghost use Rattle.samza_container.specs.NotBuilt.{first_not_built};
ghost use Rattle.samza_container.specs.Runs.{FailsMessage};
ghost use Rattle.samza_container.specs.SetUp.{setup_of};

/// Where a command's folder can be run to its end, whatever the order of its callbacks, there is no cause for it to stop: beside
/// the faults of a device and of memory, with the statuses 4 and 8, no fault has one.
pub fn runs_or_says_why()
    ensures { (words : List (List ℕ)) (f : Folder) (e : RunFaultValue) → IsCommand words
        → Runnable f → status_of e ≢ 4 → status_of e ≢ 8 → WhyStopped words f e → ⊥ }
{}

/// With one callback in flight at a time, the causes for which a command's folder stops have one line: beside those of the
/// statuses 4 and 8, and of a file that would grow too large, which depends on where the commits fall.
pub fn stops_with_one_line()
    ensures { (words : List (List ℕ)) (f : Folder) (e e' : RunFaultValue) (task : TaskNameValue)
        (inputs : List SspValue) → IsCommand words → DoesOneByOne f
        → status_of e ≢ 4 → status_of e ≢ 8 → status_of e' ≢ 4 → status_of e' ≢ 8
        → e ≢ Limit → e' ≢ Limit → WhyStopped words f e → WhyStopped words f e'
        → fault_text task inputs e ≡ fault_text task inputs e' }
{}

/// With one callback in flight at a time, where one run of a task came to its input's end, none fails a message.
pub fn ended_runs_never_fail()
    ensures { (job : Meaning) (s : Setup) (input : List ℕ) (before after : Image) (t : History)
        (r : TaskRan job s input before after t) (f : Failure)
        → length s.inputs ≡ 1 → s.concurrency ≡ 1 → s.timeout_ms ≡ None
        → Finished (given_of job s input before after t r) t after
        → done_to (given_of job s input before after t r) t
        ≡ end_at_input (given_of job s input before after t r) 0
        → FailsMessage job s input before f → ⊥ }
{}

/// A configuration of which all is built sets up a task for which a unit is opened and run: it has one input, its checkpoints
/// have a spelling, and no bound or interval is 0.
pub fn built_configurations_set_up()
    ensures set_up { (c : JobConfig) → IsBounded c → first_not_built c ≡ None
        → IsSetUp (setup_of c) }
    ensures runnable { (c : JobConfig) → IsBounded c → first_not_built c ≡ None
        → IsRunnable (setup_of c) }
{}
