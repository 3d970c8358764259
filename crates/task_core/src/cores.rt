// The machine of a task's events.
ghost use Rattle.std.specs.Prelude.{◌≡◌, ◌≢◌, ◌↔◌, ◌+◌, ◌-◌, ◌^◌, ◌<◌, ◌++◌, length, true, false, is_some, Some, None, Err, OnOk, OnErr, IfOk, reverse, filter};
ghost use Rattle.std.specs.Option.{option_copied, option_map};
ghost use Rattle.samza_model.specs.declared.acts.Act.{Act as ActValue};
ghost use Rattle.samza_model.specs.declared.events.Event.{Event as EventValue};
ghost use Rattle.samza_model.specs.declared.flights.Flight.{Flight};
ghost use Rattle.samza_model.specs.Events.{flight_of};
ghost use Rattle.samza_model.specs.Journals.{belongs};
ghost use Rattle.samza_model.specs.Lawful.{course, failure_of};
ghost use Rattle.samza_model.specs.Limits.{act_fits};
ghost use Rattle.samza_model.specs.Requests.{is_asked, due_by};
ghost use Rattle.callback_manager.specs.Callbacks.{entry_of};
ghost use Rattle.core_steps.specs.Cores.{CoreValue, IsCore, uncovered_now, Commits, IsCleared, after_commit, act_event, next_at, MayBegin, Adds, IsBody, IsCallAct, deliver_event, after_deliver, after_act};
ghost use Rattle.core_steps.specs.Held.{IsSized};
ghost use Rattle.core_steps.specs.Lanes.{lane_at};
ghost use Rattle.core_parts.specs.declared.courses.Course.{Course as CourseValue};
ghost use Rattle.core_parts.specs.Courses.{course_seen};
ghost use Rattle.task_core.specs.declared.faults.DeliverFault.{DeliverFault as DeliverFaultValue};
ghost use Rattle.task_core.specs.Delivering.{refusal};
ghost use Rattle.task_core.specs.Plans.{IsKept};

use crate::faults::DeliverFault;
use crate::plans::Kept;
use callback_manager::{Callbacks, Entry};
use core_parts::{
    Course, Holdings, Journal, act_noted, answers_of, begin_noted, complete_one, course_at,
    deliver_one, earlier, ended, failure_at, greater_scope, low_at, recycle, shutdown_of,
};
use kv_store::TrackedTable;
use offset_window::OffsetWindow;
use output_log::Outputs;
use packed_events::Packed;
use samza_model::{
    Act, Answer, Event, Failure, Items, NoMemory, Plain, Record, Scope, Setup, Ssp, Why,
};
use std::alloc::Global;
use std::marker::Model;
use window_timer::Times;

/// A task without its devices.
#[derive(Drop)]
pub struct Core {
    pub(crate) alloc: Global,
    pub(crate) setup: Setup,
    pub(crate) starts: Vec<u64>,
    pub(crate) ends: Vec<u64>,
    pub(crate) lanes: Vec<OffsetWindow>,
    pub(crate) callbacks: Callbacks,
    pub(crate) holdings: Holdings,
    pub(crate) failed: Option<Failure>,
    pub(crate) window: Option<Items<Answer>>,
    pub(crate) journal: Journal,
    pub(crate) times: Times,
    /// The greatest scope of a shutdown that an act asked for.
    pub(crate) asked: Option<Scope>,
    /// The last mark's number, 0 where there is none.
    pub(crate) last: u64,
    /// A partition's name that an ended callback left.
    pub(crate) spare: Option<Ssp>,
}

impl Model for Core {
    ghost use Rattle.std.specs.Coded.{codes};
    ghost use Rattle.kv_store.specs.Tracked.{tracked_code};
    ghost use Rattle.core_steps.specs.Cores.{CoreValue, IsCore};

    ghost Value = { CoreValue };

    ghost coded = { Prim.hlevel (codes, tracked_code) };

    ghost view = { λ c. record { setup = c.setup; starts = c.starts.items; ends = c.ends.items; lanes = c.lanes.items; callbacks = c.callbacks; held = c.holdings; failed = c.failed; window = c.window; since = c.journal.since; kept = c.journal.kept; times = c.times; asked = c.asked; last = c.last } };

    ghost invariant = { λ c. IsCore (record { setup = c.setup; starts = c.starts.items; ends = c.ends.items; lanes = c.lanes.items; callbacks = c.callbacks; held = c.holdings; failed = c.failed; window = c.window; since = c.journal.since; kept = c.journal.kept; times = c.times; asked = c.asked; last = c.last }) };
}

impl Core {
    /// Why no message of this input may be delivered; none where one may.
    pub fn refusal(&self, input: u32) -> Option<DeliverFault>
        requires input { input < length self.now.starts }
        ensures refusal { result ≡ refusal self.now input }
        ensures may { result ≡ None → MayBegin self.now input }
        ensures core { IsCore self.now }
    {
        let place = input as usize;
        let in_flight = self.callbacks.count();
        if self.failed.is_some() {
            Some(DeliverFault::Failed)
        } else if self.window.is_some() {
            Some(DeliverFault::Windowing)
        } else if self.ends[place] <= self.lanes[place].next() {
            Some(DeliverFault::Ended)
        } else if self.setup.concurrency <= in_flight {
            Some(DeliverFault::Full { in_flight })
        } else if self.lanes[place].is_spanned() {
            Some(DeliverFault::Spanned)
        } else if !self.setup.async_commit && self.is_due() {
            Some(DeliverFault::Draining)
        } else {
            None
        }
    }

    /// Begins a callback on the next message of an input.
    fn begin(&mut self, input: u32, body: Record) -> Result<u64, NoMemory>
        requires input { input < length self.old.starts }
        requires may { MayBegin self.old input }
        ensures number { IfOk result (λ n. n ≡ self.old.callbacks.next) }
        ensures ok { OnOk result (self.new ≡ after_deliver self.old input body) }
        ensures err { OnErr result (self.new ≡ self.old) }
    {
        let place = input as usize;
        let offset = self.lanes[place].next();
        let number = self.callbacks.next();
        begin_noted(
            self.alloc,
            &self.setup,
            &mut self.callbacks,
            &mut self.spare,
            &mut self.journal,
            input,
            offset,
            body,
            self.times.moment,
        )?;
        deliver_one(&mut self.lanes, place);
        Ok(number)
    }

    /// Makes an act of a callback in flight and answers it.
    pub fn make_act(&mut self, number: u64, act: Act) -> Result<(), NoMemory>
        requires flies { is_some (flight_of number self.old.callbacks.flights) ≡ true }
        requires few { (f : Flight) → flight_of number self.old.callbacks.flights ≡ Some f
            → length f.answers < 1023 }
        requires fits { act_fits self.old.setup act ≡ true }
        ensures ok { (f : Flight) → flight_of number self.old.callbacks.flights ≡ Some f
            → OnOk result (self.new ≡ after_act self.old f act) }
        ensures added { (f : Flight) → flight_of number self.old.callbacks.flights ≡ Some f
            → course self.old.setup (length f.answers) act ≡ None
            → OnOk result (Adds (IsCallAct f act) self.old self.new (act_event self.old f act)) }
        ensures err { OnErr result (self.new ≡ self.old) }
    {
        let answer = self.holdings.answer(&self.setup, &act)?;
        let place = answers_of(&self.callbacks, number);
        let asked = greater_scope(self.asked, shutdown_of(&act));
        act_noted(
            &self.setup,
            &mut self.callbacks,
            &mut self.journal,
            &mut self.holdings,
            number,
            place,
            answer,
            act,
        )?;
        self.asked = asked;
        Ok(())
    }

    /// Completes a callback in flight.
    pub fn complete(&mut self, number: u64) -> Result<(), NoMemory>
        requires flies { is_some (flight_of number self.old.callbacks.flights) ≡ true }
        ensures added { (f : Flight) → flight_of number self.old.callbacks.flights ≡ Some f
            → OnOk result (Adds (IsCallAct f ActValue.Done) self.old self.new
            (EventValue.Complete f.number)) }
        ensures err { OnErr result (self.new ≡ self.old) }
    {
        self.journal.push(Event::Complete(number))?;
        let entry = ended(&mut self.callbacks, number);
        complete_one(&mut self.lanes, entry.input as usize, entry.envelope.offset);
        recycle(&mut self.callbacks, &mut self.spare, entry);
        Ok(())
    }

    /// A callback in flight fails.
    pub fn fail(&mut self, number: u64, why: Why) -> Result<(), NoMemory>
        requires flies { is_some (flight_of number self.old.callbacks.flights) ≡ true }
        ensures added { (f : Flight) (act : ActValue) → flight_of number self.old.callbacks.flights
            ≡ Some f → course self.old.setup (length f.answers) act ≡ Some (Some why)
            → OnOk result (Adds (IsCallAct f act) self.old self.new (EventValue.Failed
            (failure_of f why))) }
        ensures err { OnErr result (self.new ≡ self.old) }
    {
        let failure = failure_at(&self.callbacks, number, why);
        self.journal.push(Event::Failed(failure))?;
        let _entry = ended(&mut self.callbacks, number);
        self.failed = earlier(self.failed, failure);
        Ok(())
    }

    /// A mark was made, behind which this is kept. It takes no memory.
    pub fn committed(&mut self, kept: Kept)
        requires kept { IsKept self.old kept }
        requires last { self.old.last < 2 ^ 64 - 1 }
        ensures commits { Commits self.old self.new }
        ensures stands { IsCore self.old }
        ensures cleared { IsCleared self.old.held self.new.held }
        ensures made { self.new ≡ after_commit self.old self.new.held }
    {
        self.journal.trim(kept.events);
        self.holdings.clear();
        self.times.committed();
        self.last += 1;
    }

    /// Delivers the next message of an input, and tells the callback's number. An error leaves all as it was; want of
    /// memory comes only where nothing else stands against the message.
    pub fn deliver(&mut self, input: u32, body: Record) -> Result<u64, DeliverFault>
        requires input { input < length self.old.starts }
        ensures added { OnOk result (Adds (IsBody input
            (next_at self.old input) body) self.old self.new (deliver_event self.old input body)) }
        ensures number { IfOk result (λ n. n ≡ self.old.callbacks.next) }
        ensures ok { OnOk result (refusal self.old input ≡ None) }
        ensures refused { (e : DeliverFaultValue) → e ≢ DeliverFaultValue.NoMemory
            → ((result ≡ Err e) ↔ (refusal self.old input ≡ Some e)) }
        ensures prompt { OnOk result (self.old.setup.async_commit ≡ false
            → due_by self.old.since ≡ false) }
        ensures kept { OnErr result (self.new ≡ self.old) }
    {
        if let Some(fault) = self.refusal(input) {
            return Err(fault);
        }
        let number = self.begin(input, body)?;
        Ok(number)
    }

    /// The setup that it was given.
    pub fn setup(&self) -> &Setup
        ensures { result.now ≡ self.now.setup }
    {
        &self.setup
    }

    /// What the window that is open was answered.
    pub(crate) fn window(&self) -> Option<&Items<Answer>>
        ensures { option_copied result ≡ self.now.window }
    {
        self.window.as_ref()
    }

    /// The allocator that it was given.
    pub(crate) fn alloc(&self) -> Global {
        self.alloc
    }

    /// The last mark's number, 0 where there is none.
    pub fn last(&self) -> u64
        ensures last { result ≡ self.now.last }
        ensures core { IsCore self.now }
    {
        self.last
    }

    /// The windows of the inputs' offsets.
    pub(crate) fn lanes(&self) -> &[OffsetWindow]
        ensures { result.now ≡ self.now.lanes }
    {
        self.lanes.as_slice()
    }

    /// The stores, in the setup's order.
    pub fn stores(&self) -> &[TrackedTable]
        ensures stores { result.now ≡ self.now.held.stores }
        ensures sized { IsSized self.now.setup self.now.held }
    {
        self.holdings.stores()
    }

    /// The outputs, in the setup's order.
    pub fn outputs(&self) -> &Outputs
        ensures { result.now
            ≡ record { unsent = self.now.held.unsent; cleared = self.now.held.cleared } }
    {
        self.holdings.outputs()
    }

    /// The next callback's number.
    pub fn number(&self) -> u64
        ensures number { result ≡ self.now.callbacks.next }
        ensures core { IsCore self.now }
    {
        self.callbacks.next()
    }

    /// How many callbacks are in flight.
    pub fn in_flight(&self) -> u32
        ensures count { result ≡ length self.now.callbacks.flights }
        ensures core { IsCore self.now }
    {
        self.callbacks.count()
    }

    /// Whether a turn failed.
    pub fn is_failed(&self) -> bool
        ensures { result ≡ is_some self.now.failed }
    {
        self.failed.is_some()
    }

    /// Whether a window is open.
    pub fn is_windowing(&self) -> bool
        ensures { result ≡ is_some self.now.window }
    {
        self.window.is_some()
    }

    /// The next offset of an input.
    pub fn next(&self, input: u32) -> u64
        requires { input < length self.now.starts }
        ensures next { result ≡ next_at self.now input }
    {
        self.lanes[input as usize].next()
    }

    /// The first offset of an input that isn't covered.
    pub fn low(&self, input: u32) -> u64
        ensures { result ≡ (lane_at self.now.lanes input).low }
    {
        low_at(self.lanes.as_slice(), input)
    }

    /// How many events there are since the last mark.
    pub fn events(&self) -> usize
        ensures { result ≡ length self.now.since }
    {
        self.journal.count()
    }

    /// Whether an act since the last mark asks for the next one.
    pub fn is_asked(&self) -> bool
        ensures { result ≡ is_asked self.now.since }
    {
        self.journal.is_asked()
    }

    /// The callbacks that a mark now doesn't cover.
    pub(crate) fn uncovered(&self) -> Result<Vec<u64>, NoMemory>
        ensures { IfOk result (λ v. v.items ≡ uncovered_now self.now) }
    {
        self.journal.uncovered(self.alloc, self.lanes.as_slice())
    }

    /// The events that a mark now keeps, oldest first.
    pub(crate) fn kept(&self, uncovered: &[u64]) -> Result<Packed, NoMemory>
        ensures { IfOk result (λ kept. reverse kept ≡ filter (belongs uncovered.now)
            (self.now.since ++ self.now.kept)) }
    {
        self.journal.kept(self.alloc, uncovered)
    }

    /// A callback in flight.
    pub fn entry(&self, number: u64) -> Option<&Entry>
        ensures { option_copied result ≡ option_map entry_of
            (flight_of number self.now.callbacks.flights) }
    {
        self.callbacks.entry(number)
    }

    /// How a callback's turn goes on behind this act.
    pub fn course(&self, made: usize, act: &Act) -> Course
        ensures course { course_seen result ≡ course self.now.setup made act.now }
        ensures fits { result ≡ CourseValue.GoesOn → act_fits self.now.setup act.now ≡ true }
        ensures few { result ≡ CourseValue.GoesOn → made < 1023 }
        ensures done { result ≡ CourseValue.Done → act.now ≡ ActValue.Done }
    {
        course_at(&self.setup, made, act)
    }
}
