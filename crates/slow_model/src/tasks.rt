// A task whose job and partitions are told, and its next event.
ghost use Rattle.std.specs.Prelude.{◌≡◌, ◌+◌, ◌-◌, ◌<◌, ◌^◌, [], IfOk, MatchOption, length, map, nat_lt, option_and_then};
ghost use Rattle.samza_model.specs.Content.{answer_of, nothing_stored};
ghost use Rattle.samza_model.specs.Events.{deliveries_of, flight_of, flights, low, state_after};
ghost use Rattle.samza_model.specs.Lawful.{MayAct, MayExpire, MayWindow, call_event, course, failure_of, window_event, window_failure};
ghost use Rattle.samza_model.specs.Partition.{message};
ghost use Rattle.slow_model.specs.Tasks.{IsDelivery, NoDelivery, NoExpiry, NoWindow, begins, blank, expiry, given_of, is_late, is_quiet, next_act, next_delivery, next_window, part_of};

use crate::flights::{flight_at, flights_of};
use crate::lows::{deliveries, deliveries_of, low_behind};
use crate::{PlainState, end_at, failure_in, state_behind, window_answers, window_open};
use kv_store::Table;
use samza_model::{
    Act, Answer, Bin, Event, Failure, Flight, Items, Job, NoMemory, Plain, Record, Setup,
    StoreSetup, Turn, Why,
};
use std::alloc::Global;

/// One input of a plain task.
#[derive(Drop)]
pub struct PlainInput {
    /// The offset of the first message that the partition has.
    pub first: u64,
    /// The partition's messages, in order.
    pub records: Items<Record>,
    /// The offset at which the task begins.
    pub start: u64,
    /// The offset before which it ends.
    pub end: u64,
}

/// A task whose job and partitions are told. Its stores are empty at its opening, and nothing is sent.
#[derive(Drop)]
pub struct PlainTask<J> {
    pub job: J,
    pub setup: Setup,
    /// Those of the setup, in its order.
    pub inputs: Items<PlainInput>,
}

fn empty_stores(alloc: Global, stores: &[StoreSetup]) -> Result<Vec<Table>, NoMemory>
    ensures { IfOk result (λ made. made.items ≡ map (λ _. nothing_stored) stores.now) }
{
    let mut made = Vec::new(alloc);
    for _store in stores {
        made.push(Table::new(alloc))?;
    }
    Ok(made)
}

fn nothing_sent(alloc: Global, outputs: &[Bin]) -> Result<Vec<Items<Record>>, NoMemory>
    ensures { IfOk result (λ made. made.items ≡ map (λ _. []) outputs.now) }
{
    let mut made = Vec::new(alloc);
    for _output in outputs {
        made.push(Items::from_vec(Vec::new(alloc)))?;
    }
    Ok(made)
}

/// Empty stores, and nothing sent.
pub fn blank(alloc: Global, setup: &Setup) -> Result<PlainState, NoMemory>
    ensures { IfOk result (λ state. state ≡ blank setup.now) }
{
    let stores = empty_stores(alloc, setup.stores.as_slice())?;
    let sent = nothing_sent(alloc, setup.outputs.as_slice())?;
    Ok(PlainState::of(stores, sent))
}

/// The message at an offset.
fn message_at(alloc: Global, input: &PlainInput, offset: u64) -> Result<Option<Record>, NoMemory>
    ensures { IfOk result (λ found. found ≡ message (part_of input.now) offset) }
{
    if offset < input.first {
        return Ok(None);
    }
    match input
        .records
        .as_slice()
        .get((offset - input.first) as usize)
    {
        Some(record) => Ok(Some(record.copy(alloc)?)),
        None => Ok(None),
    }
}

/// Whether nothing failed, and no window is open.
fn is_quiet(events: &[Event]) -> bool
    ensures { result ≡ is_quiet events.now }
{
    failure_in(events).is_none() && !window_open(events)
}

fn has_room(alloc: Global, setup: &Setup, events: &[Event]) -> Result<bool, NoMemory>
    ensures { IfOk result
        (λ room. room ≡ nat_lt (length (flights setup.now events.now)) setup.now.concurrency) }
{
    let flights = flights_of(alloc, setup, events)?;
    Ok(flights.len() < setup.concurrency as usize)
}

fn is_within(offset: u64, low: u64, span: u32) -> bool
    ensures { result ≡ nat_lt offset (low + span) }
{
    offset < low || offset - low < span as u64
}

/// Whether a callback may begin at this offset of an input, as far as the events say.
fn begins(
    alloc: Global,
    setup: &Setup,
    start: u64,
    events: &[Event],
    input: u32,
    offset: u64,
) -> Result<bool, NoMemory>
    requires { start + deliveries_of input events.now < 2 ^ 64 }
    ensures { IfOk result (λ may. may ≡ begins setup.now start events.now input offset) }
{
    let room = has_room(alloc, setup, events)?;
    let low = low_behind(alloc, setup, start, events, input)?;
    Ok(room && is_within(offset, low, setup.span) && is_quiet(events))
}

/// The delivery of an input's next message, where it may come.
fn delivery(
    alloc: Global,
    setup: &Setup,
    place: &PlainInput,
    events: &[Event],
    input: u32,
    moment: u64,
) -> Result<Option<Event>, NoMemory>
    ensures { IfOk result
        (λ next. next ≡ next_delivery setup.now place.now events.now input moment) }
{
    let end = place.end;
    let Some(offset) = place.start.checked_add(deliveries_of(input, events)) else {
        return Ok(None);
    };
    if offset >= end || !begins(alloc, setup, place.start, events, input, offset)? {
        return Ok(None);
    }
    let number = deliveries(events);
    match message_at(alloc, place, offset)? {
        Some(body) => Ok(Some(Event::Deliver {
            number,
            input,
            offset,
            body,
            moment,
        })),
        None => Ok(None),
    }
}

/// How a turn ends at an act behind so many answers; none where it goes on.
fn course(setup: &Setup, made: usize, act: &Act) -> Option<Option<Why>>
    ensures { result ≡ course setup.now made act.now }
{
    match end_at(setup, act) {
        Some(end) => Some(end),
        None => {
            if made < 1_023 {
                None
            } else {
                Some(Some(Why::TooMany))
            }
        }
    }
}

/// What an act is answered behind these events.
fn answer(alloc: Global, setup: &Setup, events: &[Event], act: &Act) -> Result<Answer, NoMemory>
    ensures { IfOk result
        (λ answer. answer ≡ answer_of (state_after (blank setup.now) events.now) act.now) }
{
    let state = state_behind(alloc, blank(alloc, setup)?, events)?;
    state.answer_to(alloc, act)
}

fn failure_of(flight: &Flight, why: Why) -> Failure
    ensures { result ≡ failure_of flight.now why }
{
    Failure {
        turn: Turn::Call(flight.number),
        place: Some((flight.input, flight.envelope.offset)),
        why,
    }
}

/// Whether so much time is all that a callback has, or more.
fn is_late(limit: Option<u64>, passed: u64) -> bool
    ensures { result ≡ is_late limit passed }
{
    match limit {
        Some(limit) => limit <= passed,
        None => false,
    }
}

/// The failure of a callback at this moment, where its time ran out.
fn expiry(setup: &Setup, now: u64, flight: &Flight) -> Option<Failure>
    ensures { result ≡ expiry setup.now now flight.now }
{
    let delivered = flight.delivered;
    if !is_late(setup.timeout_ms, now.saturating_sub(delivered)) {
        return None;
    }
    Some(failure_of(flight, Why::Expired { delivered, now }))
}

/// The same of the callback with this number, where it is in flight.
fn expiry_at(
    alloc: Global,
    setup: &Setup,
    events: &[Event],
    number: u64,
    now: u64,
) -> Result<Option<Failure>, NoMemory>
    ensures { IfOk result (λ found. found ≡ option_and_then (expiry setup.now now)
        (flight_of number (flights setup.now events.now))) }
{
    match flight_at(alloc, setup, events, number)? {
        Some(flight) => Ok(expiry(setup, now, &flight)),
        None => Ok(None),
    }
}

/// What an act makes of a callback.
fn call_event(
    alloc: Global,
    setup: &Setup,
    events: &[Event],
    flight: &Flight,
    act: Act,
) -> Result<Event, NoMemory>
    ensures { IfOk result (λ event. event ≡ call_event flight.now
        (state_after (blank setup.now) events.now) act
        (course setup.now (length flight.now.answers) act)) }
{
    let made = flight.answers.as_slice().len();
    match course(setup, made, &act) {
        None => {
            let answer = answer(alloc, setup, events, &act)?;
            Ok(Event::Did {
                number: flight.number,
                place: made as u32,
                act,
                answer,
            })
        }
        Some(None) => Ok(Event::Complete(flight.number)),
        Some(Some(why)) => Ok(Event::Failed(failure_of(flight, why))),
    }
}

/// What an act makes of a window behind so many answers.
fn window_event(
    alloc: Global,
    setup: &Setup,
    events: &[Event],
    answers: &[Answer],
    act: Act,
) -> Result<Event, NoMemory>
    ensures { IfOk result (λ event. event ≡ window_event answers.now
        (state_after (blank setup.now) events.now) act
        (course setup.now (length answers.now) act)) }
{
    match course(setup, answers.len(), &act) {
        None => {
            let answer = answer(alloc, setup, events, &act)?;
            Ok(Event::WindowDid {
                place: answers.len() as u32,
                act,
                answer,
            })
        }
        Some(None) => Ok(Event::WindowEnded),
        Some(Some(why)) => Ok(Event::Failed(Failure {
            turn: Turn::Window,
            place: None,
            why,
        })),
    }
}

impl<J: Job> PlainTask<J> {
    /// The delivery of an input's next message at this moment, where it may come.
    pub fn next_delivery(
        &self,
        alloc: Global,
        events: &[Event],
        input: u32,
        moment: u64,
    ) -> Result<Option<Event>, NoMemory>
        ensures { let given = given_of (J.meaning (J.plain self.now.job)) self.now.setup
            self.now.inputs in IfOk result
            (λ next. MatchOption next (NoDelivery given events.now input)
            (IsDelivery given events.now input moment)) }
    {
        let number = input as usize;
        let inputs = self.inputs.as_slice();
        if number >= inputs.len() {
            return Ok(None);
        }
        delivery(alloc, &self.setup, &inputs[number], events, input, moment)
    }

    /// What the job's next act makes of a callback.
    fn act_of(&self, alloc: Global, events: &[Event], flight: &Flight) -> Result<Event, NoMemory>
        ensures { IfOk result (λ event. event ≡ next_act (J.meaning (J.plain self.now.job))
            self.now.setup events.now flight.now) }
    {
        let act = self
            .job
            .act(alloc, &flight.envelope, flight.answers.as_slice())?;
        call_event(alloc, &self.setup, events, flight, act)
    }

    /// What the job's next act makes of the callback with this number; none where it isn't in flight.
    pub fn next_act(
        &self,
        alloc: Global,
        events: &[Event],
        number: u64,
    ) -> Result<Option<Event>, NoMemory>
        ensures { let given = given_of (J.meaning (J.plain self.now.job)) self.now.setup
            self.now.inputs in IfOk result
            (λ next. MatchOption next
            (flight_of number (flights self.now.setup events.now) ≡ None)
            (MayAct given events.now number)) }
    {
        match flight_at(alloc, &self.setup, events, number)? {
            Some(flight) => Ok(Some(self.act_of(alloc, events, &flight)?)),
            None => Ok(None),
        }
    }

    fn act_of_window(&self, alloc: Global, events: &[Event]) -> Result<Event, NoMemory>
        ensures { IfOk result (λ event. event ≡ next_window (J.meaning (J.plain self.now.job))
            self.now.setup events.now) }
    {
        let answers = window_answers(alloc, events)?;
        let act = self.job.window(alloc, answers.as_slice())?;
        window_event(alloc, &self.setup, events, answers.as_slice(), act)
    }

    /// What the job's next act makes of a window; none where a callback is in flight or something failed.
    pub fn next_window(&self, alloc: Global, events: &[Event]) -> Result<Option<Event>, NoMemory>
        ensures { let given = given_of (J.meaning (J.plain self.now.job)) self.now.setup
            self.now.inputs in IfOk result
            (λ next. MatchOption next (NoWindow given events.now) (MayWindow given events.now)) }
    {
        let flights = flights_of(alloc, &self.setup, events)?;
        if flights.len() > 0 || failure_in(events).is_some() {
            return Ok(None);
        }
        Ok(Some(self.act_of_window(alloc, events)?))
    }

    /// The failure of the callback with this number at this moment; none where it isn't in flight or has time left.
    pub fn expired(
        &self,
        alloc: Global,
        events: &[Event],
        number: u64,
        now: u64,
    ) -> Result<Option<Failure>, NoMemory>
        ensures { let given = given_of (J.meaning (J.plain self.now.job)) self.now.setup
            self.now.inputs in IfOk result
            (λ found. MatchOption found (NoExpiry given events.now number now)
            (MayExpire given events.now number)) }
    {
        expiry_at(alloc, &self.setup, events, number, now)
    }
}
