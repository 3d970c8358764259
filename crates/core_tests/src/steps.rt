// What a core of the word count's task answers to each of its calls.
ghost use Rattle.std.specs.Prelude.{◌≡◌, ◌<◌, ◌-◌, ◌^◌, ℕ, IfOk, OnOk, true, is_some};
ghost use Rattle.samza_model.specs.declared.turns.Turn.TheVariants.{Call};
ghost use Rattle.task_core.specs.Plans.{IsKept};

use crate::cores::{body, has_input, holds, lane, sent};
use samza_model::{Bin, Checkpoint, NoMemory, Record, Turn};
use shipped_jobs::WordCount;
use std::alloc::Global;
use task_core::{
    ActFault, Applied, ApplyFault, Core, DeliverFault, OpenWindowFault, Plan, PlanFault, Question,
    QuestionFault, Status, step,
};
use test_kit::bin;

/// What comes of a question, an act on which is applied.
#[derive(Clone, Copy, PartialEq, Eq)]
pub(crate) enum Told {
    Applied(Applied),
    Unknown,
    /// The turn was answered otherwise, so many times.
    Stale(usize),
    NoMemory,
}

/// An act that was answered, and asks for nothing.
pub(crate) const GOES_ON: Applied = Applied {
    ended: false,
    failed: false,
    ask: None,
};

/// Where a core stands.
#[derive(Clone, Copy)]
pub(crate) struct Look {
    /// The numbers of the callbacks in flight.
    pub(crate) flying: &'static [u64],
    /// The first offset that isn't covered, and the next one.
    pub(crate) low: u64,
    pub(crate) next: u64,
    /// The events since the last mark, and the mark's number.
    pub(crate) events: usize,
    pub(crate) last: u64,
}

/// A call, with what it is answered, or something that is looked at.
#[derive(Clone, Copy)]
pub(crate) enum Step {
    /// A message with this value is delivered.
    Deliver(Option<&'static str>, Result<u64, DeliverFault>),
    /// A message of so many words `w` is delivered.
    Words(usize, Result<u64, DeliverFault>),
    /// The callbacks at these places of their order make an act each: so the last one goes.
    Acts(&'static [u32], Applied),
    /// The callback makes so many acts up to its end; whether it fails.
    End(u64, u32, bool),
    /// The next act on the turn's question is applied.
    Ask(Turn, Told),
    OpenWindow(Result<(), OpenWindowFault>),
    Tell(u64),
    MarkDue,
    Due(bool),
    /// A commit, where the changelog has so many records: the mark's number, and the offset that it goes on at.
    Plan(u32, Result<(u64, u64), PlanFault>),
    /// The same, and then it is made.
    Commit(u32, Result<(u64, u64), PlanFault>),
    Stands(Look),
    Says(Status),
    Holds(&'static [(&'static str, &'static str)]),
    /// The output was sent so many records in all, and those since the last mark end with these bytes.
    Sent(u64, &'static [u8]),
}

/// Delivers a message of the one input.
pub(crate) fn deliver(core: &mut Core, body: Record) -> Result<u64, DeliverFault> {
    if has_input(core) {
        core.deliver(0, body)
    } else {
        Err(DeliverFault::Broken)
    }
}

fn is_delivered(
    alloc: Global,
    core: &mut Core,
    value: Option<&str>,
    want: Result<u64, DeliverFault>,
) -> Result<bool, NoMemory> {
    let body = body(alloc, value)?;
    Ok(deliver(core, body) == want)
}

/// The word `w`, so many times.
fn words(alloc: Global, count: usize) -> Result<Bin, NoMemory> {
    let mut text = Vec::new(alloc);
    for _ in 0..count {
        text.extend_from_slice(b"w ")?;
    }
    Ok(Bin::from_vec(text))
}

fn are_words_delivered(
    alloc: Global,
    core: &mut Core,
    count: usize,
    want: Result<u64, DeliverFault>,
) -> Result<bool, NoMemory> {
    let key = bin(alloc, "")?;
    let value = Some(words(alloc, count)?);
    Ok(deliver(core, Record { key, value }) == want)
}

/// The next act of the callback at this place.
fn act(core: &mut Core, place: u32) -> Result<Applied, ActFault> {
    match core.in_flight_at(place) {
        Some(number) => core.act_now(&WordCount, number),
        None => Err(ActFault::Unknown),
    }
}

/// The acts at these places, and what the last one did.
fn acts(core: &mut Core, places: &[u32]) -> Result<Option<Applied>, ActFault> {
    let mut last = None;
    for place in places {
        last = Some(act(core, *place)?);
    }
    Ok(last)
}

/// The acts of a callback up to its end: how many there are, and whether the last one fails.
pub(crate) fn end(core: &mut Core, number: u64) -> Result<(u32, bool), ActFault> {
    for made in 0..1_024 {
        let applied = core.act_now(&WordCount, number)?;
        if applied.ended {
            return Ok((made + 1, applied.failed));
        }
    }
    Ok((0, false))
}

/// Applies the job's next act on a question.
fn apply(alloc: Global, core: &mut Core, question: Question) -> Result<Applied, ApplyFault>
    requires { (n : ℕ) → question.turn ≡ Call n → is_some question.envelope ≡ true }
{
    let job = WordCount;
    let stepped = step(alloc, &job, question)?;
    core.apply(stepped)
}

/// What comes of a question on a core.
pub(crate) fn outcome(alloc: Global, core: &mut Core, question: Question) -> Told
    requires { (n : ℕ) → question.turn ≡ Call n → is_some question.envelope ≡ true }
{
    match apply(alloc, core, question) {
        Ok(applied) => Told::Applied(applied),
        Err(ApplyFault::Unknown) => Told::Unknown,
        Err(ApplyFault::Stale { answers }) => Told::Stale(answers.as_slice().len()),
        Err(ApplyFault::NoMemory) => Told::NoMemory,
    }
}

/// A turn's question.
pub(crate) fn question(core: &Core, turn: Turn) -> Result<Question, QuestionFault>
    ensures { IfOk result (λ q. (n : ℕ) → q.turn ≡ Call n → is_some q.envelope ≡ true) }
{
    let question = core.question(turn)?;
    match (question.turn, &question.envelope) {
        (Turn::Call(_), None) => Err(QuestionFault::Unknown),
        _ => Ok(question),
    }
}

/// What comes of a turn's question.
fn ask(alloc: Global, core: &mut Core, turn: Turn) -> Told {
    match question(core, turn) {
        Ok(question) => outcome(alloc, core, question),
        Err(QuestionFault::Unknown) => Told::Unknown,
        Err(QuestionFault::NoMemory) => Told::NoMemory,
    }
}

/// A mark's number, and the offset that the one input goes on at behind it.
fn marked(mark: &Checkpoint) -> (u64, u64) {
    match mark.inputs.as_slice() {
        [input] => (mark.id, input.next),
        _ => (0, 0),
    }
}

/// A commit of the one store, whose changelog has so many records.
fn plan(core: &Core, len: u32) -> Result<Plan, PlanFault>
    ensures kept { IfOk result (λ plan. IsKept core.now plan.kept) }
    ensures last { OnOk result (core.now.last < 2 ^ 64 - 1) }
{
    if core.setup().stores.as_slice().len() == 1 && core.last_id() < u64::MAX {
        core.plan(&[len as u64])
    } else {
        Err(PlanFault::NoMemory)
    }
}

fn planned(core: &Core, len: u32) -> Result<(u64, u64), PlanFault> {
    let plan = plan(core, len)?;
    Ok(marked(&plan.mark))
}

fn commit(core: &mut Core, len: u32) -> Result<(u64, u64), PlanFault> {
    let Plan { mark, kept, .. } = plan(core, len)?;
    core.committed(kept);
    Ok(marked(&mark))
}

/// Whether this callback is at this place of those in flight.
fn is_at(core: &Core, place: u32, want: Option<&u64>) -> bool {
    match want {
        Some(number) => core.in_flight_at(place) == Some(*number),
        None => false,
    }
}

/// Whether just these callbacks are in flight, in this order.
fn are_flying(core: &Core, numbers: &[u64]) -> bool {
    for place in 0..core.in_flight() {
        if !is_at(core, place, numbers.get(place as usize)) {
            return false;
        }
    }
    core.in_flight() as usize == numbers.len()
}

/// Whether the core stands so.
pub(crate) fn stands(core: &Core, want: Look) -> bool {
    let lies = match lane(core) {
        Some(lane) => lane.start == 0 && lane.low == want.low && lane.next == want.next,
        None => false,
    };
    lies && are_flying(core, want.flying)
        && core.events() == want.events
        && core.last_id() == want.last
}

/// Whether the output's records since the last mark end with these bytes.
fn end_with(alloc: Global, core: &Core, bytes: &[u8]) -> Result<bool, NoMemory> {
    if core.outputs().count() == 0 {
        return Ok(false);
    }
    let frames = core.outputs().frames(alloc, 0)?;
    match frames.as_slice() {
        [frame] => Ok(frame.bytes().ends_with(bytes)),
        _ => Ok(false),
    }
}

/// Whether the step's call is answered so.
fn is_answered(alloc: Global, core: &mut Core, step: Step) -> Result<bool, NoMemory> {
    match step {
        Step::Deliver(value, want) => is_delivered(alloc, core, value, want),
        Step::Words(count, want) => are_words_delivered(alloc, core, count, want),
        Step::Acts(places, want) => Ok(acts(core, places) == Ok(Some(want))),
        Step::End(number, made, fails) => Ok(end(core, number) == Ok((made, fails))),
        Step::Ask(turn, want) => Ok(ask(alloc, core, turn) == want),
        Step::OpenWindow(want) => Ok(core.open_window() == want),
        Step::Commit(len, want) => Ok(commit(core, len) == want),
        step => is_seen(alloc, core, step),
    }
}

/// Whether the step's moment or request is taken, or what it looks at is so.
fn is_seen(alloc: Global, core: &mut Core, step: Step) -> Result<bool, NoMemory> {
    match step {
        Step::Tell(moment) => {
            core.tell(moment);
            Ok(true)
        }
        Step::MarkDue => {
            core.mark_due();
            Ok(true)
        }
        Step::Due(want) => Ok(core.is_due() == want),
        Step::Plan(len, want) => Ok(planned(core, len) == want),
        Step::Stands(want) => Ok(stands(core, want)),
        Step::Says(want) => Ok(core.status() == want),
        Step::Holds(pairs) => holds(alloc, core, pairs),
        Step::Sent(count, bytes) => Ok(sent(core) == Some(count) && end_with(alloc, core, bytes)?),
        _ => Ok(false),
    }
}

/// The place of the first step that isn't answered so; none where each is.
pub(crate) fn first_wrong(
    alloc: Global,
    core: &mut Core,
    steps: &[Step],
) -> Result<Option<usize>, NoMemory> {
    for (place, step) in steps.iter().enumerate() {
        if !is_answered(alloc, core, *step)? {
            return Ok(Some(place));
        }
    }
    Ok(None)
}
