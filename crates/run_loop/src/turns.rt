// The turns of a run.
ghost use Rattle.std.specs.Prelude.{◌≡◌, ◌≢◌, ◌<◌, ◌⊎◌, [], length, true, false, None, Some, is_some, Err, IfOk, IfErr, OnOk, OnErr, slice_index_or};
ghost use Rattle.core_steps.specs.Cores.{next_at};
ghost use Rattle.core_steps.specs.Times.{is_due};
ghost use Rattle.event_unit.specs.Committing.{commit_refusal};
ghost use Rattle.event_unit.specs.Delivering.{unit_refusal};
ghost use Rattle.run_loop.specs.Measures.{turns_left};
ghost use Rattle.run_loop.specs.Runs.{IsGoing, IsMarked, IsStanding, Runs};
ghost use Rattle.run_loop.specs.Stops.{IsShort, WhyStopped};

use crate::stops::Stop;
use disk_model::{Disk, Shelf};
use edge_io::Turns;
use event_unit::{ActFault, CommitFault, DeliverFault, TaskUnit};
use samza_model::Job;

/// How a run stops by a commit that wasn't made.
fn stop_by(fault: CommitFault) -> Stop
    requires { (fault ≡ CommitFault.NoMemory) ⊎ ((fault ≡ CommitFault.Limit)
        ⊎ (fault ≡ CommitFault.Device)) }
    ensures memory { fault ≡ CommitFault.NoMemory → result ≡ Stop.NoMemory }
    ensures limit { fault ≡ CommitFault.Limit → result ≡ Stop.Limit }
    ensures device { fault ≡ CommitFault.Device → result ≡ Stop.Device }
{
    match fault {
        CommitFault::NoMemory => Stop::NoMemory,
        CommitFault::Limit => Stop::Limit,
        CommitFault::Device => Stop::Device,
        CommitFault::Failed => unreachable!(),
        CommitFault::Broken => unreachable!(),
        CommitFault::Windowing => unreachable!(),
        CommitFault::Busy { .. } => unreachable!(),
    }
}

/// Commits.
fn commit<'j, J: Job, D: Disk, S: Shelf>(unit: &mut TaskUnit<'j, J, D, S>) -> Result<(), Stop>
    requires standing { IsStanding J.meaning D.tells D.reads D.call_number D.images
        D.images_since unit.old }
    requires going { IsGoing unit.old }
    requires free { commit_refusal unit.old.broken unit.old.core ≡ None }
    ensures runs { Runs J.meaning D.tells D.reads D.call_number D.images D.images_since D.name
        D.fault_count unit.old unit.new }
    ensures marked { OnOk result (IsMarked unit.old unit.new) }
    ensures stop { IfErr result (λ s. IsShort s
        × WhyStopped D.tells D.reads D.fault_count unit.old unit.new s) }
{
    match unit.commit() {
        Ok(_) => Ok(()),
        Err(fault) => Err(stop_by(fault)),
    }
}

/// Commits where a commit is due and nothing that it awaits is in flight.
fn settle<'j, J: Job, D: Disk, S: Shelf>(unit: &mut TaskUnit<'j, J, D, S>) -> Result<(), Stop>
    requires going { IsGoing unit.old }
    ensures runs { Runs J.meaning D.tells D.reads D.call_number D.images D.images_since D.name
        D.fault_count unit.old unit.new }
    ensures going { OnOk result (IsGoing unit.new) }
    ensures settled { OnOk result (unit.new.core.callbacks.flights ≡ []
        → is_due unit.new.core.since unit.new.core.times ≡ false) }
    ensures left { OnOk result (turns_left unit.new.core ≡ turns_left unit.old.core) }
    ensures stop { IfErr result (λ s. IsShort s
        × WhyStopped D.tells D.reads D.fault_count unit.old unit.new s) }
{
    let status = unit.status();
    if status.due && (status.in_flight == 0 || unit.setup().async_commit) {
        return commit(unit);
    }
    Ok(())
}

/// That no message was delivered, or how the run stops by it.
fn refused(fault: DeliverFault) -> Result<bool, Stop>
    ensures refused { IfOk result (λ d. (d ≡ false) × (fault ≢ DeliverFault.NoMemory)) }
    ensures stop { IfErr result (λ s. s ≡ Stop.NoMemory) }
{
    match fault {
        DeliverFault::NoMemory => Err(Stop::NoMemory),
        _ => Ok(false),
    }
}

/// Delivers the next message, if one may be delivered.
fn deliver<'j, J: Job, D: Disk, S: Shelf>(unit: &mut TaskUnit<'j, J, D, S>) -> Result<bool, Stop>
    requires standing { IsStanding J.meaning D.tells D.reads D.call_number D.images
        D.images_since unit.old }
    requires going { IsGoing unit.old }
    ensures runs { Runs J.meaning D.tells D.reads D.call_number D.images D.images_since D.name
        D.fault_count unit.old unit.new }
    ensures going { IsGoing unit.new }
    ensures delivered { IfOk result (λ d. d ≡ true
        → turns_left unit.new.core < turns_left unit.old.core) }
    ensures refused { IfOk result (λ d. d ≡ false → (unit.new ≡ unit.old)
        × (unit_refusal unit.old.broken unit.old.core 0 ≢ None)) }
    ensures stop { IfErr result (λ s. s ≡ Stop.NoMemory) }
{
    match unit.deliver(0) {
        Ok(_) => Ok(true),
        Err(fault) => refused(fault),
    }
}

/// Makes the next act of one of the callbacks in flight, of which there are so many: the one that the turns pick.
fn act<'j, J: Job, D: Disk, S: Shelf, T: Turns>(
    unit: &mut TaskUnit<'j, J, D, S>,
    turns: &mut T,
    in_flight: u32,
) -> Result<(), Stop>
    requires standing { IsStanding J.meaning D.tells D.reads D.call_number D.images
        D.images_since unit.old }
    requires going { IsGoing unit.old }
    requires some { 0 < in_flight }
    requires count { in_flight ≡ length unit.old.core.callbacks.flights }
    ensures runs { Runs J.meaning D.tells D.reads D.call_number D.images D.images_since D.name
        D.fault_count unit.old unit.new }
    ensures going { OnOk result (IsGoing unit.new) }
    ensures left { OnOk result (turns_left unit.new.core < turns_left unit.old.core) }
    ensures stop { IfErr result (λ s. IsShort s
        × WhyStopped D.tells D.reads D.fault_count unit.old unit.new s) }
{
    let place = turns.pick(in_flight);
    let number = match unit.in_flight_at(place) {
        Some(number) => number,
        None => unreachable!(),
    };
    match unit.act_now(number) {
        Ok(applied) if applied.failed => Err(Stop::Failed { unit: 0 }),
        Ok(_) => Ok(()),
        Err(ActFault::NoMemory) => Err(Stop::NoMemory),
        Err(ActFault::Unknown) => unreachable!(),
    }
}

/// Commits for the last time.
fn finish<'j, J: Job, D: Disk, S: Shelf>(unit: &mut TaskUnit<'j, J, D, S>, asked: bool) -> Stop
    requires standing { IsStanding J.meaning D.tells D.reads D.call_number D.images
        D.images_since unit.old }
    requires going { IsGoing unit.old }
    requires idle { unit.old.core.callbacks.flights ≡ [] }
    requires asked { asked ≡ is_some unit.old.core.asked }
    requires ended { asked ≡ false
        → next_at unit.old.core 0 ≡ slice_index_or unit.old.core.ends 0 0 }
    ensures runs { Runs J.meaning D.tells D.reads D.call_number D.images D.images_since D.name
        D.fault_count unit.old unit.new }
    ensures stop { WhyStopped D.tells D.reads D.fault_count unit.old unit.new result }
{
    match commit(unit) {
        Ok(()) if asked => Stop::Asked,
        Ok(()) => Stop::Ended,
        Err(stop) => stop,
    }
}

/// One turn: a commit if one is due, and then a message delivered, an act made, or the last commit. It tells how the run
/// ended, if it did.
fn turn<'j, J: Job, D: Disk, S: Shelf, T: Turns>(
    unit: &mut TaskUnit<'j, J, D, S>,
    turns: &mut T,
) -> Result<(), Stop>
    requires going { IsGoing unit.old }
    ensures runs { Runs J.meaning D.tells D.reads D.call_number D.images D.images_since D.name
        D.fault_count unit.old unit.new }
    ensures going { OnOk result (IsGoing unit.new) }
    ensures left { OnOk result (turns_left unit.new.core < turns_left unit.old.core) }
    ensures stop { IfErr result (WhyStopped D.tells D.reads D.fault_count unit.old unit.new) }
{
    settle(unit)?;
    let status = unit.status();
    let asked = status.asked.is_some();
    if !asked && deliver(unit)? {
        return Ok(());
    }
    if status.in_flight > 0 {
        return act(unit, turns, status.in_flight);
    }
    Err(finish(unit, asked))
}

/// Turn after turn until the run ends.
pub(crate) fn run_turns<'j, J: Job, D: Disk, S: Shelf, T: Turns>(
    unit: &mut TaskUnit<'j, J, D, S>,
    turns: &mut T,
) -> Stop
    requires going { IsGoing unit.old }
    ensures runs { Runs J.meaning D.tells D.reads D.call_number D.images D.images_since D.name
        D.fault_count unit.old unit.new }
    ensures stop { WhyStopped D.tells D.reads D.fault_count unit.old unit.new result }
{
    loop {
        match turn(unit, turns) {
            Ok(()) => {}
            Err(stop) => return stop,
        }
    }
}
