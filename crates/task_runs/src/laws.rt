// Laws of the definitions.
ghost use Rattle.std.specs.Prelude.{◌≡◌, ◌-◌, ℕ, List, length, Some};
ghost use Rattle.samza_model.specs.declared.setups.Setup.{Setup};
ghost use Rattle.samza_model.specs.Events.{ssp_at, state_after};
ghost use Rattle.samza_model.specs.Files.{Image};
ghost use Rattle.samza_model.specs.Histories.{History, whole};
ghost use Rattle.samza_model.specs.Lawful.{Given, start_at};
ghost use Rattle.samza_model.specs.Meaning.{Meaning};
ghost use Rattle.samza_model.specs.Partition.{partition_of};
ghost use Rattle.samza_model.specs.Ran.{Finished};
ghost use Rattle.samza_model.specs.Runs.{folds};
ghost use Rattle.history_laws.specs.Deliveries.{messages_from};
ghost use Rattle.task_runs.specs.Ends.{done_to};
ghost use Rattle.task_runs.specs.Runs.{TaskRan, given_of};

/// With one callback in flight at a time, a run that came to an end left what the job's fold makes of the messages that it did,
/// from where it began, one after another: in the stores and in what was sent.
pub fn what_ended_is_the_fold()
    ensures { (job : Meaning) (s : Setup) (input : List ℕ) (before after : Image) (t : History)
        (r : TaskRan job s input before after t) → length s.inputs ≡ 1 → s.concurrency ≡ 1
        → Finished (given_of job s input before after t r) t after
        → folds job s (messages_from (ssp_at s 0) (partition_of r.messages)
        (start_at (given_of job s input before after t r) 0)
        (done_to (given_of job s input before after t r) t
        - start_at (given_of job s input before after t r) 0))
        (given_of job s input before after t r).state
        ≡ Some (state_after (given_of job s input before after t r).state (whole t)) }
{}
