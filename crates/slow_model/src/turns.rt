// A job on one message, and on messages in order.
ghost use Rattle.std.specs.Prelude.{◌≡◌, IfOk};
ghost use Rattle.samza_model.specs.Runs.{run_on, runs, folds};

use crate::{PlainState, end_at};
use samza_model::{Answer, Envelope, Job, NoMemory, Setup, Why};
use std::alloc::Global;

/// The job from here on, where so many more acts may be answered: how the turn ended.
fn run_on<J: Job>(
    alloc: Global,
    job: &J,
    setup: &Setup,
    envelope: &Envelope,
    left: u32,
    state: &mut PlainState,
    mut answers: Vec<Answer>,
) -> Result<Option<Why>, NoMemory>
    ensures { IfOk result (λ end. run_on (J.meaning (J.plain job.now)) setup.now envelope.now left
        state.old answers.items ≡ record { state = state.new; end = end }) }
{
    let act = job.act(alloc, envelope, answers.as_slice())?;
    if let Some(end) = end_at(setup, &act) {
        return Ok(end);
    }
    if left == 0 {
        return Ok(Some(Why::TooMany));
    }
    answers.push(state.answer_to(alloc, &act)?)?;
    state.make(act)?;
    run_on(alloc, job, setup, envelope, left - 1, state, answers)
}

/// The job on one message from this state, act by act: how the turn ended, and the state that it left. None means done.
/// After an error the state means nothing.
pub fn run_one<J: Job>(
    alloc: Global,
    job: &J,
    setup: &Setup,
    envelope: &Envelope,
    state: &mut PlainState,
) -> Result<Option<Why>, NoMemory>
    ensures { IfOk result (λ end. runs (J.meaning (J.plain job.now)) setup.now envelope.now
        state.old ≡ record { state = state.new; end = end }) }
{
    run_on(alloc, job, setup, envelope, 1_023, state, Vec::new(alloc))
}

/// The job on messages in order, each from the state that the one before left; none where one of them isn't done.
pub fn fold_all<J: Job>(
    alloc: Global,
    job: &J,
    setup: &Setup,
    envelopes: &[Envelope],
    state: PlainState,
) -> Result<Option<PlainState>, NoMemory>
    ensures { IfOk result (λ left. left ≡ folds (J.meaning (J.plain job.now)) setup.now
        envelopes.now state) }
{
    let mut state = state;
    for envelope in envelopes {
        match run_one(alloc, job, setup, envelope, &mut state)? {
            None => {}
            Some(_) => return Ok(None),
        }
    }
    Ok(Some(state))
}
