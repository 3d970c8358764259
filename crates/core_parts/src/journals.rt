// The events since the last mark, and those kept from before.
ghost use Rattle.std.specs.Prelude.{◌≡◌, ◌∷◌, ◌++◌, [], drop, filter, OnOk, OnErr, IfOk, reverse, length, ◌||◌, nat_le, Some, None, if◌then◌else◌};
ghost use Rattle.samza_model.specs.declared.events.Event.{Event as EventValue};
ghost use Rattle.samza_model.specs.Journals.{belongs, uncovered_by};
ghost use Rattle.samza_model.specs.Requests.{is_asked, asks_here, size_of, due_by};
ghost use Rattle.core_steps.specs.Lanes.{lane_at};
ghost use Rattle.core_parts.specs.Noting.{listed, noted_in};

use crate::asks::{asks, asks_here};
use offset_window::OffsetWindow;
use packed_events::Packed;
use samza_model::{Act, Answer, Event, NoMemory, Record};
use std::alloc::Global;
use std::marker::Model;

/// So many events since the last mark ask for the next one.
const EVENT_BOUND: usize = 131_072;

/// So many bytes of keys and values in the events since the last mark ask for the next one.
const BYTE_BOUND: usize = 8_388_608;

/// The events since the last mark, and of those before it the ones that were kept. Contracts see both parts with the newest
/// first.
#[derive(Drop)]
pub struct Journal {
    events: Packed,
    cut: usize,
    /// The bytes of the events in front of the cut.
    bytes_kept: usize,
    /// Whether an act since the last mark asks for the next one.
    asked: bool,
}

impl Model for Journal {
    ghost use Rattle.std.specs.Prelude.{◌≡◌, ◌≤◌, length, reverse, take, drop};
    ghost use Rattle.samza_model.specs.Journals.{Trimmed};
    ghost use Rattle.samza_model.specs.Requests.{is_asked};
    ghost use Rattle.packed_events.specs.Packed.{bytes_of};

    ghost Value = { Trimmed };

    ghost view = { λ j. record { since = reverse (drop j.cut j.events); kept = reverse (take j.cut j.events) } };

    ghost invariant = { λ j. (j.cut ≤ length j.events) × (j.asked ≡ is_asked (reverse (drop j.cut j.events))) × (j.bytes_kept ≡ length (bytes_of (take j.cut j.events))) };
}

impl Journal {
    /// No events.
    #[tactic(auto, unfolding(packed_events::specs::Packed::bytes_of))]
    pub fn new(alloc: Global) -> Journal
        ensures { result ≡ record { since = []; kept = [] } }
    {
        Journal {
            events: Packed::new(alloc),
            cut: 0,
            bytes_kept: 0,
            asked: false,
        }
    }

    /// An event more. The one error is want of memory, and it leaves all as it was.
    pub fn push(&mut self, event: Event) -> Result<(), NoMemory>
        ensures ok { OnOk result (self.new ≡ record {
          since = event
              ∷ self.old.since;
          kept = self.old.kept;
        }) }
        ensures err { OnErr result (self.new ≡ self.old) }
    {
        let asked = either(asks(&event), self.asked);
        put(&mut self.events, &event)?;
        self.asked = asked;
        Ok(())
    }

    /// A callback more. The one error is want of memory.
    pub(crate) fn push_deliver(
        &mut self,
        number: u64,
        input: u32,
        offset: u64,
        body: &Record,
        moment: u64,
    ) -> Result<(), NoMemory>
        ensures ok { OnOk result (self.new
            ≡ record {
              since = EventValue.Deliver number input offset body.now moment
                  ∷ self.old.since;
              kept = self.old.kept;
            }) }
        ensures err { OnErr result (self.new ≡ self.old) }
    {
        self.events
            .push_deliver(number, input, offset, body, moment)?;
        Ok(())
    }

    /// A callback's act more, made and answered. The one error is want of memory.
    pub(crate) fn push_did(
        &mut self,
        number: u64,
        place: u32,
        act: &Act,
        answer: &Answer,
    ) -> Result<(), NoMemory>
        ensures ok { OnOk result (self.new
            ≡ record {
              since = EventValue.Did number place act.now answer.now
                  ∷ self.old.since;
              kept = self.old.kept;
            }) }
        ensures err { OnErr result (self.new ≡ self.old) }
    {
        let asked = either(asks_here(act), self.asked);
        self.events.push_did(number, place, act, answer)?;
        self.asked = asked;
        Ok(())
    }

    /// A window's act more, made and answered. The one error is want of memory.
    pub(crate) fn push_window_did(
        &mut self,
        place: u32,
        act: &Act,
        answer: &Answer,
    ) -> Result<(), NoMemory>
        ensures ok { OnOk result (self.new
            ≡ record {
              since = EventValue.WindowDid place act.now answer.now
                  ∷ self.old.since;
              kept = self.old.kept;
            }) }
        ensures err { OnErr result (self.new ≡ self.old) }
    {
        let asked = either(asks_here(act), self.asked);
        self.events.push_window_did(place, act, answer)?;
        self.asked = asked;
        Ok(())
    }

    /// Takes the newest event since the last mark back, if there is one.
    pub(crate) fn take_back(&mut self, asked: bool)
        requires { asked ≡ is_asked (drop 1 self.old.since) }
        ensures { self.new ≡ record { since = drop 1 self.old.since; kept = self.old.kept } }
    {
        if self.cut < self.events.lens().0 {
            self.events.pop();
            self.asked = asked;
        }
    }

    /// Of all events those that belong to one of these callbacks, oldest first. The one error is want of memory.
    pub fn kept(&self, alloc: Global, uncovered: &[u64]) -> Result<Packed, NoMemory>
        ensures { IfOk result (λ kept. reverse kept ≡ filter (belongs uncovered.now)
            (self.now.since ++ self.now.kept)) }
    {
        let kept = self.events.kept(alloc, uncovered)?;
        Ok(kept)
    }

    /// A mark: of all events these are kept. It takes no memory.
    pub fn trim(&mut self, kept: Packed)
        ensures { self.new ≡ record { since = []; kept = reverse kept } }
    {
        let (events, bytes) = kept.lens();
        self.cut = events;
        self.bytes_kept = bytes;
        self.events = kept;
        self.asked = false;
    }

    /// How many events there are since the last mark.
    pub fn count(&self) -> usize
        ensures { result ≡ length self.now.since }
    {
        self.events.lens().0 - self.cut
    }

    /// How many bytes of keys and values are in the events since the last mark.
    pub(crate) fn bytes(&self) -> usize
        ensures { result ≡ size_of self.now.since }
    {
        self.events.lens().1 - self.bytes_kept
    }

    /// Whether an act since the last mark asks for the next one.
    pub fn is_asked(&self) -> bool
        ensures { result ≡ is_asked self.now.since }
    {
        self.asked
    }

    /// Whether the events since the last mark ask for the next one: by an act, or as too many or too large.
    pub fn is_due(&self) -> bool
        ensures { result ≡ due_by self.now.since }
    {
        self.asked || EVENT_BOUND <= self.count() || BYTE_BOUND <= self.bytes()
    }

    /// The callbacks that a mark now doesn't cover, where the inputs stand as `lanes` say, the newest first. The one error is want of
    /// memory.
    pub fn uncovered(&self, alloc: Global, lanes: &[OffsetWindow]) -> Result<Vec<u64>, NoMemory>
        ensures { IfOk result (λ v. v.items ≡ uncovered_by (λ p. (lane_at lanes.now p).low)
            (self.now.since ++ self.now.kept)) }
    {
        let mut numbers = noted(alloc, &self.events, lanes)?;
        numbers.reverse();
        Ok(numbers)
    }
}

fn put(events: &mut Packed, event: &Event) -> Result<(), NoMemory>
    ensures ok { OnOk result (events.new ≡ events.old ++ event.now ∷ []) }
    ensures err { OnErr result (events.new ≡ events.old) }
{
    match event {
        Event::Deliver {
            number,
            input,
            offset,
            body,
            moment,
        } => events.push_deliver(*number, *input, *offset, body, *moment),
        Event::Did {
            number,
            place,
            act,
            answer,
        } => events.push_did(*number, *place, act, answer),
        Event::Complete(number) => events.push_complete(*number),
        Event::Failed(failure) => events.push_failed(*failure),
        Event::WindowDid { place, act, answer } => events.push_window_did(*place, act, answer),
        Event::WindowEnded => events.push_window_ended(),
    }
}

fn noted(alloc: Global, events: &Packed, lanes: &[OffsetWindow]) -> Result<Vec<u64>, NoMemory>
    ensures { IfOk result (λ v. reverse v.items ≡ uncovered_by (λ p. (lane_at lanes.now p).low)
        (reverse events.now)) }
{
    let mut numbers = Vec::new(alloc);
    for i in 0..events.lens().0 {
        note(&mut numbers, events.delivered(i), lanes)?;
    }
    Ok(numbers)
}

fn note(
    numbers: &mut Vec<u64>,
    begun: Option<(u64, u32, u64)>,
    lanes: &[OffsetWindow],
) -> Result<(), NoMemory>
    ensures { OnOk result (numbers.new.items ≡ numbers.old.items
        ++ listed (noted_in (λ p. (lane_at lanes.now p).low) begun)) }
{
    match number_of(begun, lanes) {
        Some(number) => {
            numbers.push(number)?;
            Ok(())
        }
        None => Ok(()),
    }
}

/// The number of a callback that begins and that a mark now doesn't cover.
fn number_of(begun: Option<(u64, u32, u64)>, lanes: &[OffsetWindow]) -> Option<u64>
    ensures { result ≡ noted_in (λ p. (lane_at lanes.now p).low) begun }
{
    match begun {
        Some(begun) => not_covered(begun.0, begun.1, begun.2, lanes),
        None => None,
    }
}

fn not_covered(number: u64, input: u32, offset: u64, lanes: &[OffsetWindow]) -> Option<u64>
    ensures { result ≡ (if nat_le (lane_at lanes.now input).low offset then Some number else None) }
{
    if low_at(lanes, input) <= offset {
        Some(number)
    } else {
        None
    }
}

/// The first offset of an input that isn't covered; 0 where there is no such input.
pub fn low_at(lanes: &[OffsetWindow], input: u32) -> u64
    ensures { result ≡ (lane_at lanes.now input).low }
{
    match lanes.get(input as usize) {
        Some(lane) => lane.low(),
        None => 0,
    }
}

fn either(a: bool, b: bool) -> bool
    ensures { result ≡ (a || b) }
{
    a || b
}
