// The callbacks in flight behind events.
ghost use Rattle.std.specs.Prelude.{◌≡◌, [], IfOk, OnOk};
ghost use Rattle.samza_model.specs.Events.{answered, begun, flight_of, flights, ssp_at, without, without_turn};
ghost use Rattle.slow_model.specs.Steps.{flown, place_in};

use samza_model::{
    Answer, Bin, Envelope, Event, Flight, Items, NoMemory, Plain, Record, Setup, Ssp, Turn,
};
use std::alloc::Global;

/// Where the callback with this number stands.
pub(crate) fn place_of(flights: &[Flight], number: u64) -> Option<usize>
    ensures { result ≡ place_in number flights.now }
{
    for i in 0..flights.len() {
        if flights[i].number == number {
            return Some(i);
        }
    }
    None
}

/// A partition of no system.
fn no_ssp(alloc: Global) -> Ssp
    ensures { result ≡ record { system = []; stream = []; partition = 0 } }
{
    Ssp {
        system: Bin::from_vec(Vec::new(alloc)),
        stream: Bin::from_vec(Vec::new(alloc)),
        partition: 0,
    }
}

/// An input's partition; one of no system where there is no such input.
fn ssp_at(alloc: Global, setup: &Setup, input: u32) -> Result<Ssp, NoMemory>
    ensures { IfOk result (λ ssp. ssp ≡ ssp_at setup.now input) }
{
    let number = input as usize;
    let inputs = setup.inputs.as_slice();
    if number >= inputs.len() {
        return Ok(no_ssp(alloc));
    }
    inputs[number].ssp.copy(alloc)
}

/// The callback that a delivery begins.
fn begin(
    alloc: Global,
    setup: &Setup,
    number: u64,
    input: u32,
    offset: u64,
    body: &Record,
    moment: u64,
) -> Result<Flight, NoMemory>
    ensures { IfOk result
        (λ flight. flight ≡ begun setup.now number input offset body.now moment) }
{
    let ssp = ssp_at(alloc, setup, input)?;
    let body = body.copy(alloc)?;
    Ok(Flight {
        number,
        input,
        envelope: Envelope { ssp, offset, body },
        delivered: moment,
        answers: Items::from_vec(Vec::new(alloc)),
    })
}

/// Gives the callback with this number an answer more, if it is in flight.
fn give_answer(flights: &mut Vec<Flight>, number: u64, answer: Answer) -> Result<(), NoMemory>
    ensures { OnOk result (flights.new.items ≡ answered number answer flights.old.items) }
{
    match place_of(flights.as_slice(), number) {
        Some(place) => flights[place].answers.push(answer),
        None => Ok(()),
    }
}

/// Takes the callback with this number out, if it is in flight.
fn end(flights: &mut Vec<Flight>, number: u64)
    ensures { flights.new.items ≡ without number flights.old.items }
{
    if let Some(place) = place_of(flights.as_slice(), number) {
        let _ = flights.remove(place);
    }
}

/// Takes the callback of a turn out, if it is one in flight.
fn end_turn(flights: &mut Vec<Flight>, turn: Turn)
    ensures { flights.new.items ≡ without_turn turn flights.old.items }
{
    if let Turn::Call(number) = turn {
        end(flights, number);
    }
}

/// What one event more makes of the callbacks in flight.
fn fly(
    alloc: Global,
    setup: &Setup,
    flights: &mut Vec<Flight>,
    event: &Event,
) -> Result<(), NoMemory>
    ensures { OnOk result (flights.new.items ≡ flown setup.now event.now flights.old.items) }
{
    match event {
        Event::Deliver {
            number,
            input,
            offset,
            body,
            moment,
        } => {
            flights.push(begin(alloc, setup, *number, *input, *offset, body, *moment)?)?;
            Ok(())
        }
        Event::Did { number, answer, .. } => give_answer(flights, *number, answer.copy(alloc)?),
        Event::Complete(number) => {
            end(flights, *number);
            Ok(())
        }
        Event::Failed(failure) => {
            end_turn(flights, failure.turn);
            Ok(())
        }
        Event::WindowDid { .. } | Event::WindowEnded => Ok(()),
    }
}

/// The callbacks in flight behind these events, in the order of their delivery.
pub fn flights_of(alloc: Global, setup: &Setup, events: &[Event]) -> Result<Vec<Flight>, NoMemory>
    ensures { IfOk result (λ made. made.items ≡ flights setup.now events.now) }
{
    let Some((event, older)) = events.split_first() else {
        return Ok(Vec::new(alloc));
    };
    let mut made = flights_of(alloc, setup, older)?;
    fly(alloc, setup, &mut made, event)?;
    Ok(made)
}

/// The callback with this number, if it is in flight behind these events.
pub(crate) fn flight_at(
    alloc: Global,
    setup: &Setup,
    events: &[Event],
    number: u64,
) -> Result<Option<Flight>, NoMemory>
    ensures { IfOk result
        (λ found. found ≡ flight_of number (flights setup.now events.now)) }
{
    let mut flights = flights_of(alloc, setup, events)?;
    match place_of(flights.as_slice(), number) {
        Some(place) => Ok(Some(flights.remove(place))),
        None => Ok(None),
    }
}
