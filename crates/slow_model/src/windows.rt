// Failures and windows among events.
ghost use Rattle.std.specs.Prelude.{◌≡◌, IfOk, OnOk};
ghost use Rattle.samza_model.specs.Events.{first_failure, is_still_open, window_answers, window_open};
ghost use Rattle.slow_model.specs.Steps.{failure_at, opened, window_answered};

use samza_model::{Answer, Event, Failure, NoMemory, Plain, Turn};
use std::alloc::Global;

/// The failure that an event is.
fn failure_at(event: &Event) -> Option<Failure>
    ensures { result ≡ failure_at event.now }
{
    match event {
        Event::Failed(failure) => Some(*failure),
        _ => None,
    }
}

/// The first failure of these events.
pub fn failure_in(events: &[Event]) -> Option<Failure>
    ensures { result ≡ first_failure events.now }
{
    let Some((event, older)) = events.split_first() else {
        return None;
    };
    match failure_in(older) {
        Some(first) => Some(first),
        None => failure_at(event),
    }
}

fn is_still_open(turn: Turn, was_open: bool) -> bool
    ensures { result ≡ is_still_open turn was_open }
{
    match turn {
        Turn::Call(_) => was_open,
        Turn::Window => false,
    }
}

/// Whether a window is open behind one event more.
fn opened(event: &Event, was_open: bool) -> bool
    ensures { result ≡ opened event.now was_open }
{
    match event {
        Event::WindowDid { .. } => true,
        Event::WindowEnded => false,
        Event::Failed(failure) => is_still_open(failure.turn, was_open),
        _ => was_open,
    }
}

/// Whether a window has made an act, and has neither ended nor failed.
pub fn window_open(events: &[Event]) -> bool
    ensures { result ≡ window_open events.now }
{
    let Some((event, older)) = events.split_first() else {
        return false;
    };
    opened(event, window_open(older))
}

/// What one event more makes of the answers of windows.
fn answer_window(alloc: Global, answers: &mut Vec<Answer>, event: &Event) -> Result<(), NoMemory>
    ensures { OnOk result (answers.new.items ≡ window_answered event.now answers.old.items) }
{
    match event {
        Event::WindowDid { answer, .. } => {
            answers.push(answer.copy(alloc)?)?;
            Ok(())
        }
        Event::WindowEnded => {
            answers.clear();
            Ok(())
        }
        _ => Ok(()),
    }
}

/// What windows were answered since the last one ended.
pub fn window_answers(alloc: Global, events: &[Event]) -> Result<Vec<Answer>, NoMemory>
    ensures { IfOk result (λ answers. answers.items ≡ window_answers events.now) }
{
    let Some((event, older)) = events.split_first() else {
        return Ok(Vec::new(alloc));
    };
    let mut answers = window_answers(alloc, older)?;
    answer_window(alloc, &mut answers, event)?;
    Ok(answers)
}
