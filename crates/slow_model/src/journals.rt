// What a journal keeps of events.
ghost use Rattle.std.specs.Prelude.{◌≡◌, ◌∷◌, ◌+◌, ◌<◌, ◌^◌, ℕ, IfOk, OnOk, filter, length, slice_index_or};
ghost use Rattle.samza_model.specs.Events.{low};
ghost use Rattle.samza_model.specs.Journals.{belongs, is_among, is_turn_among, kept_of, uncovered_by};
ghost use Rattle.samza_model.specs.Lawful.{Given};
ghost use Rattle.slow_model.specs.Steps.{listed, lows_from};

use crate::low_of;
use samza_model::{Event, NoMemory, Plain, Setup, Turn};
use std::alloc::Global;

/// One item more, in front.
fn put_first<T: Drop>(items: &mut Vec<T>, item: T) -> Result<(), NoMemory>
    ensures { OnOk result (items.new.items ≡ item ∷ items.old.items) }
{
    items.insert(0, item)?;
    Ok(())
}

fn is_among(numbers: &[u64], number: u64) -> bool
    ensures { result ≡ is_among numbers.now number }
{
    let Some((first, others)) = numbers.split_first() else {
        return false;
    };
    if *first == number {
        return true;
    }
    is_among(others, number)
}

fn is_turn_among(numbers: &[u64], turn: Turn) -> bool
    ensures { result ≡ is_turn_among numbers.now turn }
{
    match turn {
        Turn::Call(number) => is_among(numbers, number),
        Turn::Window => false,
    }
}

/// Whether the event belongs to one of these callbacks.
fn belongs(numbers: &[u64], event: &Event) -> bool
    ensures { result ≡ belongs numbers.now event.now }
{
    match event {
        Event::Deliver { number, .. } => is_among(numbers, *number),
        Event::Did { number, .. } => is_among(numbers, *number),
        Event::Complete(number) => is_among(numbers, *number),
        Event::Failed(failure) => is_turn_among(numbers, failure.turn),
        Event::WindowDid { .. } | Event::WindowEnded => false,
    }
}

/// Where an input begins; at 0 where there is no such input.
fn start_of(starts: &[u64], input: u32) -> u64
    ensures { result ≡ slice_index_or starts.now input 0 }
{
    match starts.get(input as usize) {
        Some(start) => *start,
        None => 0,
    }
}

/// Puts the callback that an event begins in front, where the low behind all events doesn't cover it.
fn list(
    alloc: Global,
    setup: &Setup,
    starts: &[u64],
    all: &[Event],
    numbers: &mut Vec<u64>,
    event: &Event,
) -> Result<(), NoMemory>
    requires { (q : ℕ) → slice_index_or starts.now q 0 + length all.now < 2 ^ 64 }
    ensures { OnOk result (numbers.new.items
        ≡ listed (lows_from setup.now starts.now all.now) event.now numbers.old.items) }
{
    if let Event::Deliver {
        number,
        input,
        offset,
        ..
    } = event
    {
        if low_of(alloc, setup, start_of(starts, *input), all, *input)? <= *offset {
            put_first(numbers, *number)?;
        }
    }
    Ok(())
}

/// The callbacks among these events that the low behind all events doesn't cover, the newest first.
fn uncovered(
    alloc: Global,
    setup: &Setup,
    starts: &[u64],
    all: &[Event],
    events: &[Event],
) -> Result<Vec<u64>, NoMemory>
    requires { (q : ℕ) → slice_index_or starts.now q 0 + length all.now < 2 ^ 64 }
    ensures { IfOk result (λ numbers. numbers.items
        ≡ uncovered_by (lows_from setup.now starts.now all.now) events.now) }
{
    let Some((event, older)) = events.split_first() else {
        return Ok(Vec::new(alloc));
    };
    let mut numbers = uncovered(alloc, setup, starts, all, older)?;
    list(alloc, setup, starts, all, &mut numbers, event)?;
    Ok(numbers)
}

fn copy_event(alloc: Global, event: &Event) -> Result<Event, NoMemory>
    ensures { IfOk result (λ copy. copy ≡ event.now) }
{
    match event {
        Event::Deliver {
            number,
            input,
            offset,
            body,
            moment,
        } => Ok(Event::Deliver {
            number: *number,
            input: *input,
            offset: *offset,
            body: body.copy(alloc)?,
            moment: *moment,
        }),
        Event::Did {
            number,
            place,
            act,
            answer,
        } => Ok(Event::Did {
            number: *number,
            place: *place,
            act: act.copy(alloc)?,
            answer: answer.copy(alloc)?,
        }),
        Event::Complete(number) => Ok(Event::Complete(*number)),
        Event::Failed(failure) => Ok(Event::Failed(*failure)),
        Event::WindowDid { place, act, answer } => Ok(Event::WindowDid {
            place: *place,
            act: act.copy(alloc)?,
            answer: answer.copy(alloc)?,
        }),
        Event::WindowEnded => Ok(Event::WindowEnded),
    }
}

/// Those of the events that belong to one of these callbacks.
fn those_of(alloc: Global, numbers: &[u64], events: &[Event]) -> Result<Vec<Event>, NoMemory>
    ensures { IfOk result (λ made. made.items ≡ filter (belongs numbers.now) events.now) }
{
    let Some((event, older)) = events.split_first() else {
        return Ok(Vec::new(alloc));
    };
    let mut made = those_of(alloc, numbers, older)?;
    if belongs(numbers, event) {
        put_first(&mut made, copy_event(alloc, event)?)?;
    }
    Ok(made)
}

/// The events that a mark behind them keeps, where the task's inputs begin at these offsets.
pub fn kept_of(
    alloc: Global,
    setup: &Setup,
    starts: &[u64],
    events: &[Event],
) -> Result<Vec<Event>, NoMemory>
    requires { (q : ℕ) → slice_index_or starts.now q 0 + length events.now < 2 ^ 64 }
    ensures { IfOk result (λ made. (k : Given) → k.setup ≡ setup.now → k.starts ≡ starts.now
        → made.items ≡ kept_of k events.now) }
{
    let numbers = uncovered(alloc, setup, starts, events, events)?;
    those_of(alloc, numbers.as_slice(), events)
}
