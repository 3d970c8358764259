// What a unit of the word count's task answers to each of its calls.
ghost use Rattle.std.specs.Prelude.{◌≡◌, ◌<◌, ℕ, IfOk, true, is_some, length};
ghost use Rattle.samza_model.specs.declared.turns.Turn.TheVariants.{Call};

use crate::steps::Told;
use disk_model::{MemDisk, MemShelf};
use event_unit::{
    ActFault, Applied, ApplyFault, CommitFault, DeliverFault, LaneState, Question, QuestionFault,
    Status, TaskUnit, step,
};
use samza_model::Turn;
use shipped_jobs::WordCount;
use std::alloc::Global;

/// A unit of the word count, over a disk and an input in memory.
pub(crate) type Unit<'j> = TaskUnit<'j, WordCount, MemDisk, MemShelf>;

/// Where a unit stands.
#[derive(Clone, Copy)]
pub(crate) struct Look {
    /// The last mark's number.
    pub(crate) last: u64,
    /// The first callback in flight, if there is one.
    pub(crate) flying: Option<u64>,
    /// The offset that it was opened at, the first one that isn't covered, and the next one.
    pub(crate) start: u64,
    pub(crate) low: u64,
    pub(crate) next: u64,
    /// How many keys the store has, and how many records the output was sent since the opening.
    pub(crate) keys: u64,
    pub(crate) sent: u64,
    /// Whether it is broken, and the disk's faults.
    pub(crate) broken: bool,
    pub(crate) faults: u64,
}

/// A call, with what it is answered, or something that is looked at.
#[derive(Clone, Copy)]
pub(crate) enum Step {
    Deliver(Result<u64, DeliverFault>),
    /// The callback's next act.
    Act(u64, Result<Applied, ActFault>),
    /// The callback makes so many acts up to its end.
    End(u64, u32),
    /// The next act on the callback's question is applied.
    Ask(u64, Told),
    /// The same, once the callback has made an act since it was asked.
    AskEarly(u64, Told),
    Commit(Result<u64, CommitFault>),
    Tell(u64),
    MarkDue,
    Says(Status),
    Stands(Look),
    /// The setup has callbacks in flight up to this number.
    Concurrency(u32),
}

/// Whether the unit has an input.
fn has_input(unit: &Unit) -> bool
    ensures { result ≡ true → 0 < length unit.now.core.starts }
{
    !unit.setup().inputs.as_slice().is_empty()
}

/// Whether the unit has a store.
fn has_store(unit: &Unit) -> bool
    ensures { result ≡ true → 0 < length unit.now.core.held.stores }
{
    !unit.setup().stores.as_slice().is_empty()
}

/// Whether the unit has an output.
fn has_output(unit: &Unit) -> bool
    ensures { result ≡ true → 0 < length unit.now.core.held.unsent }
{
    !unit.setup().outputs.as_slice().is_empty()
}

/// Delivers the next message of the one input, and none where there is no input.
fn deliver(unit: &mut Unit) -> Option<Result<u64, DeliverFault>> {
    if has_input(unit) {
        Some(unit.deliver(0))
    } else {
        None
    }
}

/// Where the input stands.
fn lane(unit: &Unit) -> Option<LaneState> {
    if has_input(unit) {
        Some(unit.lane(0))
    } else {
        None
    }
}

/// How many keys the store has.
fn keys(unit: &Unit) -> Option<u64> {
    if has_store(unit) {
        Some(unit.keys(0))
    } else {
        None
    }
}

/// How many records the output was sent.
fn sent(unit: &Unit) -> Option<u64> {
    if has_output(unit) {
        Some(unit.sent(0))
    } else {
        None
    }
}

/// The acts of a callback up to its end, how many there are.
fn end(unit: &mut Unit, number: u64) -> Result<u32, ActFault> {
    for made in 0..1_024 {
        let applied = unit.act_now(number)?;
        if applied.ended {
            return Ok(made + 1);
        }
    }
    Ok(0)
}

/// A callback's question.
fn question(unit: &Unit, number: u64) -> Result<Question, QuestionFault>
    ensures { IfOk result (λ q. (n : ℕ) → q.turn ≡ Call n → is_some q.envelope ≡ true) }
{
    let question = unit.question(Turn::Call(number))?;
    match (question.turn, &question.envelope) {
        (Turn::Call(_), None) => Err(QuestionFault::Unknown),
        _ => Ok(question),
    }
}

/// Applies the job's next act on a question.
fn apply(alloc: Global, unit: &mut Unit, question: Question) -> Result<Applied, ApplyFault>
    requires { (n : ℕ) → question.turn ≡ Call n → is_some question.envelope ≡ true }
{
    let stepped = step(alloc, &WordCount, question)?;
    unit.apply(stepped)
}

/// What comes of a question on a unit.
fn outcome(alloc: Global, unit: &mut Unit, question: Question) -> Told
    requires { (n : ℕ) → question.turn ≡ Call n → is_some question.envelope ≡ true }
{
    match apply(alloc, unit, question) {
        Ok(applied) => Told::Applied(applied),
        Err(ApplyFault::Unknown) => Told::Unknown,
        Err(ApplyFault::Stale { answers }) => Told::Stale(answers.as_slice().len()),
        Err(ApplyFault::NoMemory) => Told::NoMemory,
    }
}

/// What comes of a callback's question, once the callback has made so many acts since it was asked.
fn ask(alloc: Global, unit: &mut Unit, number: u64, acts: u32) -> Told {
    match question(unit, number) {
        Ok(question) => {
            for _ in 0..acts {
                let _ = unit.act_now(number);
            }
            outcome(alloc, unit, question)
        }
        Err(QuestionFault::Unknown) => Told::Unknown,
        Err(QuestionFault::NoMemory) => Told::NoMemory,
    }
}

/// Commits, and tells the mark's number.
fn commit(unit: &mut Unit) -> Result<u64, CommitFault> {
    let mark = unit.commit()?;
    Ok(mark.id)
}

/// Whether the input stands so.
fn lies(unit: &Unit, want: Look) -> bool {
    match lane(unit) {
        Some(lane) => lane.start == want.start && lane.low == want.low && lane.next == want.next,
        None => false,
    }
}

/// Whether the unit stands so.
fn stands(unit: &Unit, want: Look) -> bool {
    lies(unit, want)
        && unit.last_id() == want.last
        && unit.in_flight_at(0) == want.flying
        && keys(unit) == Some(want.keys)
        && sent(unit) == Some(want.sent)
        && unit.is_broken() == want.broken
        && unit.disk_faults() == want.faults
        && unit.shelf_faults() == 0
}

/// Whether the call is answered so.
fn is_answered(alloc: Global, unit: &mut Unit, call: Step) -> bool {
    match call {
        Step::Deliver(want) => deliver(unit) == Some(want),
        Step::Act(number, want) => unit.act_now(number) == want,
        Step::End(number, made) => end(unit, number) == Ok(made),
        Step::Ask(number, want) => ask(alloc, unit, number, 0) == want,
        Step::AskEarly(number, want) => ask(alloc, unit, number, 1) == want,
        Step::Commit(want) => commit(unit) == want,
        call => is_seen(unit, call),
    }
}

/// Whether the call's moment or request is taken, or what it looks at is so.
fn is_seen(unit: &mut Unit, call: Step) -> bool {
    match call {
        Step::Tell(moment) => {
            unit.tell(moment);
            true
        }
        Step::MarkDue => {
            unit.mark_due();
            true
        }
        Step::Says(want) => unit.status() == want,
        Step::Stands(want) => stands(unit, want),
        Step::Concurrency(want) => unit.setup().concurrency == want,
        _ => false,
    }
}

/// The place of the first call that isn't answered so; none where each is.
pub(crate) fn first_wrong(alloc: Global, unit: &mut Unit, calls: &[Step]) -> Option<usize> {
    for (place, call) in calls.iter().enumerate() {
        if !is_answered(alloc, unit, *call) {
            return Some(place);
        }
    }
    None
}
