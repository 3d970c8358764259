// What a task of the word count makes of small inputs, event by event. What is wanted was found by hand.
use crate::examples::{holds, sent, words};
use samza_model::{
    Event, Failure, InputSetup, Items, NoMemory, OffsetDefault, Record, Setup, Ssp, Turn, Why,
};
use shipped_jobs::WordCount;
use slow_model::{
    PlainInput, PlainTask, blank, failure_in, flights_of, is_covered, kept_of, low_of, state_behind,
};
use std::alloc::Global;
use std::test::Fail;
use test_kit::{bin, list, setup};

type Texts = &'static [Option<&'static str>];

/// Messages of these values, with empty keys.
fn lines(alloc: Global, values: &[Option<&str>]) -> Result<Items<Record>, NoMemory> {
    let mut records = Vec::new(alloc);
    for value in values {
        let key = bin(alloc, "")?;
        let value = match value {
            Some(text) => Some(bin(alloc, text)?),
            None => None,
        };
        records.push(Record { key, value })?;
    }
    Ok(Items::from_vec(records))
}

/// An input that has all of its messages, from offset 0 on.
fn input(alloc: Global, values: &[Option<&str>]) -> Result<PlainInput, NoMemory> {
    Ok(PlainInput {
        first: 0,
        records: lines(alloc, values)?,
        start: 0,
        end: values.len() as u64,
    })
}

/// An input whose messages before offset 3 are gone, and of which the task begins at offset 5.
fn later_input(alloc: Global, values: &[Option<&str>; 3]) -> Result<PlainInput, NoMemory> {
    Ok(PlainInput {
        first: 3,
        records: lines(alloc, values.as_slice())?,
        start: 5,
        end: 6,
    })
}

fn input_setup(alloc: Global, stream: &str) -> Result<InputSetup, NoMemory> {
    let ssp = Ssp {
        system: bin(alloc, "kafka")?,
        stream: bin(alloc, stream)?,
        partition: 0,
    };
    Ok(InputSetup {
        ssp,
        fallback: OffsetDefault::Oldest,
        reset: false,
    })
}

/// The setup of a task of two inputs, of which a test may use one.
fn two_inputs(alloc: Global, concurrency: u32, span: u32) -> Result<Setup, NoMemory> {
    let mut inputs = Vec::new(alloc);
    inputs.push(input_setup(alloc, "lines")?)?;
    inputs.push(input_setup(alloc, "more")?)?;
    let mut setup = setup(alloc)?;
    setup.inputs = Items::from_vec(inputs);
    setup.concurrency = concurrency;
    setup.span = span;
    Ok(setup)
}

/// A task of the word count over an input of these messages.
fn task(
    alloc: Global,
    concurrency: u32,
    span: u32,
    values: &[Option<&str>],
) -> Result<PlainTask<WordCount>, NoMemory> {
    let inputs = list(alloc, input(alloc, values)?)?;
    Ok(PlainTask {
        job: WordCount,
        setup: two_inputs(alloc, concurrency, span)?,
        inputs,
    })
}

/// A task over two inputs: one of the message `a`, and one that begins at offset 5, where `b` stands.
fn task_of_two(alloc: Global) -> Result<PlainTask<WordCount>, NoMemory> {
    let mut inputs = Vec::new(alloc);
    inputs.push(input(alloc, &[Some("a")])?)?;
    inputs.push(later_input(alloc, &[Some("x"), Some("y"), Some("b")])?)?;
    Ok(PlainTask {
        job: WordCount,
        setup: two_inputs(alloc, 2, 8)?,
        inputs: Items::from_vec(inputs),
    })
}

/// One event more, in front.
fn add(events: &mut Vec<Event>, event: Event) -> Result<(), NoMemory> {
    events.insert(0, event)?;
    Ok(())
}

/// Delivers messages of an input as long as one may be delivered.
fn deliver(
    alloc: Global,
    task: &PlainTask<WordCount>,
    events: &mut Vec<Event>,
    input: u32,
) -> Result<(), NoMemory> {
    for _ in 0..task.setup.concurrency {
        match task.next_delivery(alloc, events.as_slice(), input, 7)? {
            Some(event) => add(events, event)?,
            None => return Ok(()),
        }
    }
    Ok(())
}

/// The number of a callback, by its place among those in flight.
fn number_at(alloc: Global, setup: &Setup, events: &[Event], place: usize) -> Result<u64, Fail> {
    let flights = flights_of(alloc, setup, events)?;
    match flights.as_slice().get(place) {
        Some(flight) => Ok(flight.number),
        None => Err("no callback in flight has this place".into()),
    }
}

/// The next act of the callback at this place.
fn act(
    alloc: Global,
    task: &PlainTask<WordCount>,
    events: &mut Vec<Event>,
    place: usize,
) -> Result<(), Fail> {
    let number = number_at(alloc, &task.setup, events.as_slice(), place)?;
    match task.next_act(alloc, events.as_slice(), number)? {
        Some(event) => Ok(add(events, event)?),
        None => Err("the callback isn't in flight".into()),
    }
}

/// The events of a schedule: messages are delivered as long as one may be, and then the callback at the next place acts.
fn history(
    alloc: Global,
    task: &PlainTask<WordCount>,
    places: &[usize],
) -> Result<Vec<Event>, Fail> {
    let mut events = Vec::new(alloc);
    deliver(alloc, task, &mut events, 0)?;
    for place in places {
        act(alloc, task, &mut events, *place)?;
        deliver(alloc, task, &mut events, 0)?;
    }
    Ok(events)
}

/// A schedule, and what is wanted behind it.
struct Case {
    concurrency: u32,
    values: Texts,
    places: &'static [usize],
    /// The offsets of the callbacks that are complete.
    complete: &'static [u64],
    low: u64,
    /// The numbers of the callbacks in flight.
    flying: &'static [u64],
    failure: Option<Failure>,
    stored: &'static [(&'static str, &'static str)],
    sent: &'static [(&'static str, Option<&'static str>)],
}

const CASES: &[Case] = &[
    Case {
        concurrency: 4,
        values: &[Some("a"), Some("b"), Some("c"), Some("d")],
        places: &[2, 2, 2, 2, 0, 0, 0, 0],
        complete: &[0, 2],
        low: 1,
        flying: &[1, 3],
        failure: None,
        stored: &[("a", "1"), ("c", "1")],
        sent: &[("c", Some("1")), ("a", Some("1"))],
    },
    Case {
        concurrency: 4,
        values: &[Some("a"), Some("b"), Some("c"), Some("d")],
        places: &[2, 2, 2, 2, 0, 0, 0, 0, 0, 0, 0, 0],
        complete: &[0, 1, 2],
        low: 3,
        flying: &[3],
        failure: None,
        stored: &[("a", "1"), ("b", "1"), ("c", "1")],
        sent: &[("c", Some("1")), ("a", Some("1")), ("b", Some("1"))],
    },
    Case {
        concurrency: 3,
        values: &[Some("a"), Some("b"), None, Some("d"), Some("e")],
        places: &[0, 0, 0, 0, 0, 0, 0, 0, 1, 1, 1, 1, 1, 1, 1, 1, 0],
        complete: &[0, 1, 3, 4],
        low: 2,
        flying: &[],
        failure: Some(Failure {
            turn: Turn::Call(2),
            place: Some((0, 2)),
            why: Why::Code(1),
        }),
        stored: &[("a", "1"), ("b", "1"), ("d", "1"), ("e", "1")],
        sent: &[
            ("a", Some("1")),
            ("b", Some("1")),
            ("d", Some("1")),
            ("e", Some("1")),
        ],
    },
    Case {
        concurrency: 3,
        values: &[Some("a"), Some("b"), Some("c")],
        places: &[2, 2, 2, 2, 1, 1, 1, 1, 0, 0, 0, 0],
        complete: &[0, 1, 2],
        low: 3,
        flying: &[],
        failure: None,
        stored: &[("a", "1"), ("b", "1"), ("c", "1")],
        sent: &[("c", Some("1")), ("b", Some("1")), ("a", Some("1"))],
    },
    // The acts of two callbacks of one word, in turn: each finds nothing, and the fold of the messages would be 2.
    Case {
        concurrency: 2,
        values: &[Some("a"), Some("a")],
        places: &[0, 1, 0, 1, 0, 1, 0, 0],
        complete: &[0, 1],
        low: 2,
        flying: &[],
        failure: None,
        stored: &[("a", "1")],
        sent: &[("a", Some("1")), ("a", Some("1"))],
    },
    Case {
        concurrency: 3,
        values: &[Some("a"), Some("b"), Some("c")],
        places: &[1, 1, 1, 1],
        complete: &[1],
        low: 0,
        flying: &[0, 2],
        failure: None,
        stored: &[("b", "1")],
        sent: &[("b", Some("1"))],
    },
];

/// Whether these offsets of the first input are complete, and no others.
fn are_complete(
    alloc: Global,
    setup: &Setup,
    events: &[Event],
    offsets: &[u64],
) -> Result<bool, NoMemory> {
    for offset in 0..8 {
        if is_covered(alloc, setup, 0, offset, events)? != offsets.contains(&offset) {
            return Ok(false);
        }
    }
    Ok(true)
}

/// Whether these callbacks are in flight, in this order.
fn are_flying(
    alloc: Global,
    setup: &Setup,
    events: &[Event],
    numbers: &[u64],
) -> Result<bool, NoMemory> {
    let flights = flights_of(alloc, setup, events)?;
    for (flight, number) in flights.as_slice().iter().zip(numbers) {
        if flight.number != *number {
            return Ok(false);
        }
    }
    Ok(flights.len() == numbers.len())
}

/// Whether the events leave this in the store and the output.
fn leave(
    alloc: Global,
    setup: &Setup,
    events: &[Event],
    stored: &[(&str, &str)],
    sends: &[(&str, Option<&str>)],
) -> Result<bool, NoMemory> {
    let state = state_behind(alloc, blank(alloc, setup)?, events)?;
    Ok(holds(alloc, &state, stored)? && sent(&state, sends))
}

/// Whether the events are those of the case.
fn is_wanted(
    alloc: Global,
    setup: &Setup,
    events: &[Event],
    case: &Case,
) -> Result<bool, NoMemory> {
    Ok(
        are_complete(alloc, setup, events, case.complete)?
            && low_of(alloc, setup, 0, events, 0)? == case.low
            && are_flying(alloc, setup, events, case.flying)?
            && failure_in(events) == case.failure
            && leave(alloc, setup, events, case.stored, case.sent)?,
    )
}

/// Whether the case's schedule comes to what is wanted.
fn comes_so(alloc: Global, case: &Case) -> Result<bool, Fail> {
    let task = task(alloc, case.concurrency, 8, case.values)?;
    let events = history(alloc, &task, case.places)?;
    Ok(is_wanted(alloc, &task.setup, events.as_slice(), case)?)
}

#[test]
fn schedules_come_to_what_was_found_by_hand(rt: HostRuntime) -> Result<(), Fail> {
    for (number, case) in CASES.iter().enumerate() {
        assert!(rt; comes_so(rt.alloc(), case)?, "case {number}");
    }
    Ok(())
}

/// Messages and a schedule of three callbacks at once, and how many events a mark behind it keeps.
const KEPT: &[(Texts, &[usize], usize)] = &[
    (&[Some("a"), Some("b"), Some("c")], &[], 3),
    (&[Some("a"), Some("b"), Some("c")], &[1, 1, 1, 1], 7),
    (&[Some("a"), Some("b"), Some("c")], &[0, 2, 2], 6),
    (&[Some("a"), Some("b"), Some("c")], &[0, 0, 0, 0], 2),
    (
        &[Some("a"), Some("b"), Some("c")],
        &[1, 1, 1, 1, 0, 0, 0, 0],
        1,
    ),
    (
        &[Some("a"), Some("b"), Some("c")],
        &[0, 0, 0, 0, 0, 0, 0, 0, 0, 0, 0, 0],
        0,
    ),
    // callbacks 2, 3 and 4: three deliveries, the eight acts of two, and the failure
    (
        &[Some("a"), Some("b"), None, Some("d"), Some("e")],
        &[0, 0, 0, 0, 0, 0, 0, 0, 1, 1, 1, 1, 1, 1, 1, 1, 0],
        12,
    ),
];

/// How many events a mark behind these keeps, where each input begins at offset 0.
fn kept(alloc: Global, setup: &Setup, events: &[Event]) -> Result<usize, NoMemory> {
    let kept = kept_of(alloc, setup, &[], events)?;
    Ok(kept.len())
}

/// The same of a schedule.
fn kept_behind(alloc: Global, values: &[Option<&str>], places: &[usize]) -> Result<usize, Fail> {
    let task = task(alloc, 3, 8, values)?;
    let events = history(alloc, &task, places)?;
    Ok(kept(alloc, &task.setup, events.as_slice())?)
}

#[test]
fn a_mark_keeps_all_events_of_what_it_does_not_cover(rt: HostRuntime) -> Result<(), Fail> {
    for (number, (values, places, want)) in KEPT.iter().enumerate() {
        let found = kept_behind(rt.alloc(), values, places)?;
        assert_eq!(rt; found, *want, "schedule {number}");
    }
    Ok(())
}

/// Whether an input has a next message that may be delivered.
fn may_deliver(
    alloc: Global,
    task: &PlainTask<WordCount>,
    events: &[Event],
    input: u32,
) -> Result<bool, NoMemory> {
    let next = task.next_delivery(alloc, events, input, 7)?;
    Ok(next.is_some())
}

/// Whether the callback with this number may act.
fn may_act(
    alloc: Global,
    task: &PlainTask<WordCount>,
    events: &[Event],
    number: u64,
) -> Result<bool, NoMemory> {
    let next = task.next_act(alloc, events, number)?;
    Ok(next.is_some())
}

/// The events of a task of two inputs: the first message of each is delivered, and the second one's callback is done.
fn second_is_done(alloc: Global, task: &PlainTask<WordCount>) -> Result<Vec<Event>, Fail> {
    let mut events = Vec::new(alloc);
    deliver(alloc, task, &mut events, 0)?;
    deliver(alloc, task, &mut events, 1)?;
    for _ in 0..4 {
        act(alloc, task, &mut events, 1)?;
    }
    Ok(events)
}

#[test]
fn each_input_has_its_own_low(rt: HostRuntime) -> Result<(), Fail> {
    let task = task_of_two(rt.alloc())?;
    let events = second_is_done(rt.alloc(), &task)?;
    for (input, start, want) in [(0, 0, 0), (1, 5, 6), (2, 0, 0)] {
        let low = low_of(rt.alloc(), &task.setup, start, events.as_slice(), input)?;
        assert_eq!(rt; low, want, "input {input}");
    }
    assert!(rt;
        leave(
            rt.alloc(),
            &task.setup,
            events.as_slice(),
            &[("b", "1")],
            &[("b", Some("1"))]
        )?
    );
    Ok(())
}

#[test]
fn no_message_is_delivered_past_the_end_or_of_no_input(rt: HostRuntime) -> Result<(), Fail> {
    let task = task_of_two(rt.alloc())?;
    for (input, want) in [(0, true), (1, true), (2, false)] {
        assert!(rt;
            may_deliver(rt.alloc(), &task, &[], input)? == want,
            "input {input}"
        );
    }
    let events = second_is_done(rt.alloc(), &task)?;
    for input in 0..3 {
        assert!(rt;
            !may_deliver(rt.alloc(), &task, events.as_slice(), input)?,
            "input {input}"
        );
    }
    Ok(())
}

#[test]
fn a_callback_acts_while_it_is_in_flight(rt: HostRuntime) -> Result<(), Fail> {
    let task = task_of_two(rt.alloc())?;
    let events = second_is_done(rt.alloc(), &task)?;
    for (number, want) in [(0, true), (1, false), (2, false)] {
        assert!(rt;
            may_act(rt.alloc(), &task, events.as_slice(), number)? == want,
            "{number}"
        );
    }
    Ok(())
}

/// How many messages are delivered at once.
fn delivered(alloc: Global, concurrency: u32, span: u32) -> Result<usize, NoMemory> {
    let task = task(alloc, concurrency, span, &[Some("a"), Some("b"), Some("c")])?;
    let mut events = Vec::new(alloc);
    deliver(alloc, &task, &mut events, 0)?;
    Ok(events.len())
}

#[test]
fn concurrency_and_span_bound_what_is_in_flight(rt: HostRuntime) -> Result<(), Fail> {
    for (concurrency, span, want) in [(2, 8, 2), (8, 2, 2), (8, 8, 3), (1, 1, 1), (0, 8, 0)] {
        let found = delivered(rt.alloc(), concurrency, span)?;
        assert_eq!(rt; found, want, "{concurrency} {span}");
    }
    Ok(())
}

/// Whether the word count's window behind these events is done at once; none where no window may act.
fn ends_window(
    alloc: Global,
    task: &PlainTask<WordCount>,
    events: &[Event],
) -> Result<Option<bool>, NoMemory> {
    match task.next_window(alloc, events)? {
        Some(event) => Ok(Some(event == Event::WindowEnded)),
        None => Ok(None),
    }
}

/// Schedules behind which no window may act: the first message's callback is in flight, then the second one's, then that failed.
const BUSY: &[&[usize]] = &[&[], &[0, 0, 0], &[0, 0, 0, 0], &[0, 0, 0, 0, 0]];

#[test]
fn a_window_acts_while_nothing_is_in_flight_or_failed(rt: HostRuntime) -> Result<(), Fail> {
    let task = task(rt.alloc(), 1, 8, &[Some("a"), None])?;
    for places in BUSY {
        let events = history(rt.alloc(), &task, places)?;
        let found = ends_window(rt.alloc(), &task, events.as_slice())?;
        assert!(rt; found.is_none());
    }
    let found = ends_window(rt.alloc(), &task, &[])?;
    assert!(rt; found == Some(true));
    Ok(())
}

/// The failure of a callback that was delivered at moment 7, with such a timeout, at a later moment.
fn expired(
    alloc: Global,
    timeout: Option<u64>,
    number: u64,
    now: u64,
) -> Result<Option<Failure>, NoMemory> {
    let mut task = task(alloc, 1, 8, &[Some("a")])?;
    task.setup.timeout_ms = timeout;
    let mut events = Vec::new(alloc);
    deliver(alloc, &task, &mut events, 0)?;
    task.expired(alloc, events.as_slice(), number, now)
}

#[test]
fn a_callback_runs_out_of_time_at_its_timeout(rt: HostRuntime) -> Result<(), Fail> {
    for (timeout, number, now) in [(Some(100), 0, 106), (Some(100), 1, 107), (None, 0, 107)] {
        let found = expired(rt.alloc(), timeout, number, now)?;
        assert!(rt; found.is_none(), "callback {number} at {now}");
    }
    let found = expired(rt.alloc(), Some(100), 0, 107)?;
    let failure = Failure {
        turn: Turn::Call(0),
        place: Some((0, 0)),
        why: Why::Expired {
            delivered: 7,
            now: 107,
        },
    };
    assert!(rt; found == Some(failure));
    Ok(())
}

/// A message of the word `w`, so many times.
fn long_task(alloc: Global, count: usize) -> Result<PlainTask<WordCount>, NoMemory> {
    let value = words(alloc, count)?;
    let key = bin(alloc, "")?;
    let records = list(
        alloc,
        Record {
            key,
            value: Some(value),
        },
    )?;
    let input = PlainInput {
        first: 0,
        records,
        start: 0,
        end: 1,
    };
    Ok(PlainTask {
        job: WordCount,
        setup: two_inputs(alloc, 1, 8)?,
        inputs: list(alloc, input)?,
    })
}

/// The events of a task's first callback, up to its last act.
fn to_its_end(alloc: Global, task: &PlainTask<WordCount>) -> Result<Vec<Event>, Fail> {
    let mut events = Vec::new(alloc);
    deliver(alloc, task, &mut events, 0)?;
    for _ in 0..1_024 {
        act(alloc, task, &mut events, 0)?;
    }
    Ok(events)
}

/// Whether a message of so many words ends so, and leaves this count of them.
fn ends_so(alloc: Global, count: usize, why: Option<Why>) -> Result<bool, Fail> {
    let task = long_task(alloc, count)?;
    let events = to_its_end(alloc, &task)?;
    let state = state_behind(alloc, blank(alloc, &task.setup)?, events.as_slice())?;
    let failure = failure_in(events.as_slice());
    Ok(
        holds(alloc, &state, &[("w", "341")])?
            && failure.map(|failure| failure.why) == why
            && is_covered(alloc, &task.setup, 0, 0, events.as_slice())? == why.is_none(),
    )
}

#[test]
fn a_callback_of_341_words_is_complete_and_one_of_342_fails(rt: HostRuntime) -> Result<(), Fail> {
    for (count, why) in [(341, None), (342, Some(Why::TooMany))] {
        assert!(rt; ends_so(rt.alloc(), count, why)?, "of {count}");
    }
    Ok(())
}
