// What calls do to the parts of a core: all of it, or nothing.
ghost use Rattle.std.specs.Prelude.{◌≡◌, ◌+◌, ◌-◌, ◌^◌, ◌<◌, ◌∷◌, ◌++◌, [], length, true, false, is_some, List, Some, OnOk, OnErr, IfOk, slice_set};
ghost use Rattle.samza_model.specs.declared.acts.Answer.{Answer as AnswerValue};
ghost use Rattle.samza_model.specs.declared.events.Event.{Event};
ghost use Rattle.samza_model.specs.declared.flights.Flight.{Flight};
ghost use Rattle.samza_model.specs.Events.{begun, flight_of, answered, without, earlier};
ghost use Rattle.samza_model.specs.Limits.{act_fits};
ghost use Rattle.offset_window.specs.Windows.{next_of, is_inside, is_done, delivered, completed};
ghost use Rattle.callback_manager.specs.Callbacks.{entry_of};
ghost use Rattle.core_steps.specs.Held.{held_after, IsSized};
ghost use Rattle.core_steps.specs.Lanes.{lane_at};
ghost use Rattle.core_steps.specs.Places.{place_failure};

use crate::holdings::Holdings;
use crate::journals::Journal;
use callback_manager::{Callbacks, Entry};
use offset_window::OffsetWindow;
use samza_model::{
    Act, Answer, Envelope, Event, Failure, Items, NoMemory, Plain, Record, Setup, Ssp, Turn, Why,
};
use std::alloc::Global;

/// A callback begins, with its event. The one error is want of memory, and it leaves the callbacks and the journal as they
/// were.
pub fn begin_noted(
    alloc: Global,
    setup: &Setup,
    callbacks: &mut Callbacks,
    spare: &mut Option<Ssp>,
    journal: &mut Journal,
    input: u32,
    offset: u64,
    body: Record,
    now: u64,
) -> Result<(), NoMemory>
    requires input { input < length setup.now.inputs }
    requires count { callbacks.old.next < 2 ^ 64 - 1 }
    ensures began { OnOk result (callbacks.new ≡ record {
      flights = callbacks.old.flights
          ++ begun setup.now callbacks.old.next input offset body now
          ∷ [];
      next = callbacks.old.next + 1;
      limit = callbacks.old.limit;
    }) }
    ensures noted { OnOk result (journal.new
        ≡ record {
          since = Event.Deliver callbacks.old.next input offset body now
              ∷ journal.old.since;
          kept = journal.old.kept;
        }) }
    ensures err_callbacks { OnErr result (callbacks.new ≡ callbacks.old) }
    ensures err_journal { OnErr result (journal.new ≡ journal.old) }
{
    let ssp = named(alloc, spare, &setup.inputs.as_slice()[input as usize].ssp)?;
    let number = callbacks.next();
    let asked = journal.is_asked();
    journal.push_deliver(number, input, offset, &body, now)?;
    let envelope = Envelope { ssp, offset, body };
    match callbacks.begin(input, envelope, now) {
        Ok(_number) => Ok(()),
        Err(_fault) => {
            journal.take_back(asked);
            Err(NoMemory)
        }
    }
}

/// A copy of a partition's name: the spare one, where it is the same.
fn named(alloc: Global, spare: &mut Option<Ssp>, name: &Ssp) -> Result<Ssp, NoMemory>
    ensures { IfOk result (λ made. made ≡ name.now) }
{
    match spare.take() {
        Some(kept) if kept.same(name) => Ok(kept),
        _ => name.copy(alloc),
    }
}

/// Keeps what an ended callback's entry has for one that begins later.
pub fn recycle(callbacks: &mut Callbacks, spare: &mut Option<Ssp>, entry: Entry)
    ensures { callbacks.new ≡ callbacks.old }
{
    let Entry {
        envelope,
        answers,
        ..
    } = entry;
    let Envelope { ssp, .. } = envelope;
    *spare = Some(ssp);
    callbacks.keep_room(answers);
}

/// The next offset of a lane is delivered.
pub fn deliver_one(lanes: &mut Vec<OffsetWindow>, place: usize)
    requires place { place < length lanes.old.items }
    requires count { next_of (lane_at lanes.old.items place) < 2 ^ 64 - 1 }
    requires near { length (lane_at lanes.old.items place).done <
        (lane_at lanes.old.items place).span }
    ensures { lanes.new.items ≡ slice_set lanes.old.items place (delivered
        (lane_at lanes.old.items place)) }
{
    let _offset = lanes[place].deliver();
}

/// An offset of a lane is completed.
pub fn complete_one(lanes: &mut Vec<OffsetWindow>, place: usize, offset: u64)
    requires place { place < length lanes.old.items }
    requires inside { is_inside (lane_at lanes.old.items place) offset ≡ true }
    requires open { is_done (lane_at lanes.old.items place) offset ≡ false }
    ensures { lanes.new.items ≡ slice_set lanes.old.items place (completed
        (lane_at lanes.old.items place) offset) }
{
    let _done = lanes[place].complete(offset);
}

/// An act of a callback in flight is made and answered, with its event. The one error is want of memory, and it leaves all as
/// it was.
#[tactic(auto, using(crate::proofs::Undone::unanswered_answered))]
pub fn act_noted(
    setup: &Setup,
    callbacks: &mut Callbacks,
    journal: &mut Journal,
    holdings: &mut Holdings,
    number: u64,
    place: u32,
    answer: Answer,
    act: Act,
) -> Result<(), NoMemory>
    requires flies { is_some (flight_of number callbacks.old.flights) ≡ true }
    requires fits { act_fits setup.now act ≡ true }
    requires sized { IsSized setup.now holdings.old }
    ensures answered { OnOk result (callbacks.new
        ≡
        record {
          flights = answered number answer callbacks.old.flights;
          next = callbacks.old.next;
          limit = callbacks.old.limit;
        }) }
    ensures noted { OnOk result (journal.new ≡ record {
      since = Event.Did number place act answer
          ∷ journal.old.since;
      kept = journal.old.kept;
    }) }
    ensures made { OnOk result (holdings.new ≡ held_after holdings.old act) }
    ensures err_callbacks { OnErr result (callbacks.new ≡ callbacks.old) }
    ensures err_journal { OnErr result (journal.new ≡ journal.old) }
    ensures err_holdings { OnErr result (holdings.new ≡ holdings.old) }
{
    let asked = journal.is_asked();
    journal.push_did(number, place, &act, &answer)?;
    if let Err(fault) = callbacks.answer(number, answer) {
        journal.take_back(asked);
        return Err(fault);
    }
    if let Err(fault) = holdings.change(setup, act) {
        callbacks.take_answer_back(number);
        journal.take_back(asked);
        return Err(fault);
    }
    Ok(())
}

/// A window's act is made and answered, with its event.
#[tactic(auto, using(crate::proofs::Undone::without_last))]
fn window_act_noted(
    setup: &Setup,
    answers: &mut Items<Answer>,
    journal: &mut Journal,
    holdings: &mut Holdings,
    answer: Answer,
    act: Act,
) -> Result<(), NoMemory>
    requires few { length answers.old < 1023 }
    requires fits { act_fits setup.now act ≡ true }
    requires sized { IsSized setup.now holdings.old }
    ensures answered { OnOk result (answers.new ≡ answers.old ++ answer ∷ []) }
    ensures noted { OnOk result (journal.new ≡ record {
      since = Event.WindowDid (length answers.old) act answer
          ∷ journal.old.since;
      kept = journal.old.kept;
    }) }
    ensures made { OnOk result (holdings.new ≡ held_after holdings.old act) }
    ensures err_answers { OnErr result (answers.new ≡ answers.old) }
    ensures err_journal { OnErr result (journal.new ≡ journal.old) }
    ensures err_holdings { OnErr result (holdings.new ≡ holdings.old) }
{
    let asked = journal.is_asked();
    let place = answers.as_slice().len() as u32;
    journal.push_window_did(place, &act, &answer)?;
    if let Err(fault) = answers.push(answer) {
        journal.take_back(asked);
        return Err(fault);
    }
    if let Err(fault) = holdings.change(setup, act) {
        answers.drop_last();
        journal.take_back(asked);
        return Err(fault);
    }
    Ok(())
}

/// An act of the window that is open is made and answered, with its event. The one error is want of memory, and it leaves all
/// as it was.
pub fn open_act_noted(
    setup: &Setup,
    window: &mut Option<Items<Answer>>,
    journal: &mut Journal,
    holdings: &mut Holdings,
    answer: Answer,
    act: Act,
) -> Result<(), NoMemory>
    requires window { is_some window.old ≡ true }
    requires few { (answers : List AnswerValue) → window.old ≡ Some answers
        → length answers < 1023 }
    requires fits { act_fits setup.now act ≡ true }
    requires sized { IsSized setup.now holdings.old }
    ensures answered { (answers : List AnswerValue) → window.old ≡ Some answers
        → OnOk result (window.new ≡ Some (answers ++ answer ∷ [])) }
    ensures noted { (answers : List AnswerValue) → window.old ≡ Some answers
        → OnOk result (journal.new ≡ record {
          since = Event.WindowDid (length answers) act answer
              ∷ journal.old.since;
          kept = journal.old.kept;
        }) }
    ensures made { OnOk result (holdings.new ≡ held_after holdings.old act) }
    ensures err_window { OnErr result (window.new ≡ window.old) }
    ensures err_journal { OnErr result (journal.new ≡ journal.old) }
    ensures err_holdings { OnErr result (holdings.new ≡ holdings.old) }
{
    match window {
        Some(answers) => window_act_noted(setup, answers, journal, holdings, answer, act),
        None => Err(NoMemory),
    }
}

/// How many answers a callback in flight has.
pub fn answers_of(callbacks: &Callbacks, number: u64) -> u32
    requires { (f : Flight) → flight_of number callbacks.now.flights ≡ Some f
        → length f.answers < 1023 }
    ensures { (f : Flight) → flight_of number callbacks.now.flights ≡ Some f
        → result ≡ length f.answers }
{
    match callbacks.entry(number) {
        Some(entry) => entry.answers.as_slice().len() as u32,
        None => 0,
    }
}

/// Ends a callback in flight, and hands out its entry.
pub fn ended(callbacks: &mut Callbacks, number: u64) -> Entry
    requires { is_some (flight_of number callbacks.old.flights) ≡ true }
    ensures entry { (f : Flight) → flight_of number callbacks.old.flights ≡ Some f
        → result ≡ entry_of f }
    ensures rest { callbacks.new
        ≡
        record {
          flights = without number callbacks.old.flights;
          next = callbacks.old.next;
          limit =
              callbacks.old.limit;
        } }
{
    callbacks.end(number).unwrap()
}

/// The failure of a callback in flight, with the place of its message.
pub fn failure_at(callbacks: &Callbacks, number: u64, why: Why) -> Failure
    ensures { (f : Flight) → flight_of number callbacks.now.flights ≡ Some f
        → result ≡ place_failure number f why }
{
    match callbacks.entry(number) {
        Some(entry) => Failure {
            turn: Turn::Call(number),
            place: Some((entry.input, entry.envelope.offset)),
            why,
        },
        None => Failure {
            turn: Turn::Call(number),
            place: None,
            why,
        },
    }
}

/// The first of failures: the one before, if there is one.
pub fn earlier(kept: Option<Failure>, failure: Failure) -> Option<Failure>
    ensures { result ≡ earlier kept failure }
{
    match kept {
        Some(first) => Some(first),
        None => Some(failure),
    }
}
