// Deliveries, and each input's low.
ghost use Rattle.std.specs.Prelude.{◌≡◌, ◌+◌, ◌<◌, ◌≤◌, ◌^◌, IfOk, length};
ghost use Rattle.samza_model.specs.Events.{deliveries, deliveries_of, is_at, is_covered, low, past, flight_of, flights};
ghost use Rattle.slow_model.specs.Steps.{covers, is_delivery, is_delivery_of};

use crate::flights::{flights_of, place_of};
use samza_model::{Event, Flight, NoMemory, Setup};
use std::alloc::Global;

fn is_delivery(event: &Event) -> bool
    ensures { result ≡ is_delivery event.now }
{
    match event {
        Event::Deliver { .. } => true,
        _ => false,
    }
}

fn is_delivery_of(input: u32, event: &Event) -> bool
    ensures { result ≡ is_delivery_of input event.now }
{
    match event {
        Event::Deliver { input: of, .. } => *of == input,
        _ => false,
    }
}

/// How many callbacks began.
pub(crate) fn deliveries(events: &[Event]) -> u64
    ensures is { result ≡ deliveries events.now }
    ensures few { result ≤ length events.now }
{
    let Some((event, older)) = events.split_first() else {
        return 0;
    };
    let before = deliveries(older);
    if is_delivery(event) {
        return before + 1;
    }
    before
}

/// How many callbacks began on this input.
pub(crate) fn deliveries_of(input: u32, events: &[Event]) -> u64
    ensures is { result ≡ deliveries_of input events.now }
    ensures few { result ≤ length events.now }
{
    let Some((event, older)) = events.split_first() else {
        return 0;
    };
    let before = deliveries_of(input, older);
    if is_delivery_of(input, event) {
        return before + 1;
    }
    before
}

/// Whether the callback with this number is in flight on this input and offset.
fn is_at(
    alloc: Global,
    setup: &Setup,
    events: &[Event],
    number: u64,
    input: u32,
    offset: u64,
) -> Result<bool, NoMemory>
    ensures { IfOk result (λ at. at ≡ is_at input offset
        (flight_of number (flights setup.now events.now))) }
{
    let flights = flights_of(alloc, setup, events)?;
    match place_of(flights.as_slice(), number) {
        None => Ok(false),
        Some(place) => Ok(stands_at(&flights[place], input, offset)),
    }
}

fn stands_at(flight: &Flight, input: u32, offset: u64) -> bool
    ensures { result ≡ is_at input offset (Some flight.now) }
{
    flight.input == input && flight.envelope.offset == offset
}

/// Whether an event is the completion of a callback on this input and offset.
fn covers(
    alloc: Global,
    setup: &Setup,
    input: u32,
    offset: u64,
    older: &[Event],
    event: &Event,
) -> Result<bool, NoMemory>
    ensures { IfOk result (λ done. done ≡ covers setup.now input offset older.now event.now) }
{
    match event {
        Event::Complete(number) => is_at(alloc, setup, older, *number, input, offset),
        _ => Ok(false),
    }
}

/// Whether a callback on this input and offset is complete.
pub fn is_covered(
    alloc: Global,
    setup: &Setup,
    input: u32,
    offset: u64,
    events: &[Event],
) -> Result<bool, NoMemory>
    ensures { IfOk result (λ covered. covered ≡ is_covered setup.now input offset events.now) }
{
    let Some((event, older)) = events.split_first() else {
        return Ok(false);
    };
    if covers(alloc, setup, input, offset, older, event)? {
        return Ok(true);
    }
    is_covered(alloc, setup, input, offset, older)
}

/// From this offset on, past those that are covered, at most so many.
fn past(
    alloc: Global,
    setup: &Setup,
    events: &[Event],
    input: u32,
    at: u64,
    left: u64,
) -> Result<u64, NoMemory>
    requires { at + left < 2 ^ 64 }
    ensures { IfOk result
        (λ made. made ≡ past (λ o. is_covered setup.now input o events.now) at left) }
{
    if left == 0 {
        return Ok(at);
    }
    if is_covered(alloc, setup, input, at, events)? {
        return past(alloc, setup, events, input, at + 1, left - 1);
    }
    Ok(at)
}

/// An input's low, by the number of its deliveries.
pub(crate) fn low_behind(
    alloc: Global,
    setup: &Setup,
    start: u64,
    events: &[Event],
    input: u32,
) -> Result<u64, NoMemory>
    requires { start + deliveries_of input events.now < 2 ^ 64 }
    ensures { IfOk result (λ made. made ≡ low setup.now start events.now input) }
{
    past(
        alloc,
        setup,
        events,
        input,
        start,
        deliveries_of(input, events),
    )
}

/// An input's low: the least offset, from its start on, that isn't covered.
pub fn low_of(
    alloc: Global,
    setup: &Setup,
    start: u64,
    events: &[Event],
    input: u32,
) -> Result<u64, NoMemory>
    requires { start + length events.now < 2 ^ 64 }
    ensures { IfOk result (λ made. made ≡ low setup.now start events.now input) }
{
    let count = deliveries_of(input, events);
    past(alloc, setup, events, input, start, count)
}
