// The callbacks in flight stand in a slab, and a list of their numbers and keys says their order.
ghost use Rattle.std.specs.Prelude.{ℕ, ◌≡◌, ◌↔◌, ◌+◌, ◌-◌, ◌^◌, ◌<◌, ◌≤◌, ◌∷◌, ◌++◌, [], length, Some, None, true, is_some, is_ok, IfOk, IfSome, OnOk, OnErr, slice_get};
ghost use Rattle.std.specs.Option.{option_copied, option_map};
ghost use Rattle.samza_model.specs.declared.flights.Flight.{Flight};
ghost use Rattle.samza_model.specs.Events.{flight_of, answered, without};
ghost use Rattle.callback_manager.specs.Callbacks.{flight, entry_of, unanswered, numbers};
ghost use Rattle.callback_manager.specs.Tickets.{place_in, with_more, with_less};

use samza_model::{Answer, Envelope, Items, NoMemory};
use slab::Slab;
use std::alloc::{AllocError, AllocFailed, Global};
use std::marker::Model;
use std::mem;

/// A callback in flight.
#[derive(Debug, Drop)]
pub struct Entry {
    /// The number of the input.
    pub input: u32,
    pub envelope: Envelope,
    /// What its acts were answered so far, oldest first.
    pub answers: Items<Answer>,
    /// The moment of its delivery.
    pub delivered: u64,
}

/// A callback's number, and where it stands in the slab.
#[derive(Clone, Copy, Debug)]
pub(crate) struct Ticket {
    number: u64,
    key: usize,
}

/// Why no callback can begin.
#[derive(Clone, Copy, Debug, PartialEq, Eq)]
pub enum BeginFault {
    Full,
    NoMemory,
}

impl From<AllocError> for BeginFault {
    ghost use Rattle.std.specs.Prelude.{◌≡◌};
    ghost use Rattle.callback_manager.specs.declared.callbacks.BeginFault.TheVariants.{NoMemory as NoRoom};

    ghost from_gives = { λ _ e. e ≡ NoRoom };

    fn from(_: AllocError) -> Self {
        BeginFault::NoMemory
    }
}

impl From<AllocFailed<Entry>> for BeginFault {
    ghost use Rattle.std.specs.Prelude.{◌≡◌};
    ghost use Rattle.callback_manager.specs.declared.callbacks.BeginFault.TheVariants.{NoMemory as NoRoom};

    ghost from_gives = { λ _ e. e ≡ NoRoom };

    fn from(_: AllocFailed<Entry>) -> Self {
        BeginFault::NoMemory
    }
}

/// The callbacks in flight, in the order in which they began. Contracts see the list of them, the next number, and how
/// many there may be.
#[derive(Drop)]
pub struct Callbacks {
    alloc: Global,
    limit: u32,
    next: u64,
    tickets: Vec<Ticket>,
    entries: Slab<Entry>,
    /// The room of a list of answers that isn't needed any more.
    room: Vec<Answer>,
}

impl Model for Callbacks {
    ghost use Rattle.callback_manager.specs.Callbacks.{CallbacksValue};
    ghost use Rattle.callback_manager.specs.Tickets.{flights_in, IsManaged};

    ghost Value = { CallbacksValue };

    ghost view = { λ c. record { flights = flights_in c.entries c.tickets.items; next = c.next; limit = c.limit } };

    ghost invariant = { λ c. IsManaged c.next c.limit c.entries c.tickets.items };
}

impl Callbacks {
    /// No callbacks yet, of which so many may be in flight. The one error is want of memory.
    pub fn new(alloc: Global, limit: u32) -> Result<Callbacks, NoMemory>
        ensures { IfOk result (λ c. c ≡ record { flights = []; next = 0; limit = limit }) }
    {
        Ok(Callbacks {
            alloc,
            limit,
            next: 0,
            tickets: Vec::new(alloc),
            entries: Slab::new(alloc),
            room: Vec::new(alloc),
        })
    }

    /// How many are in flight.
    #[tactic(auto, using(crate::proofs::Kept::flights_length))]
    pub fn count(&self) -> u32
        ensures { result ≡ length self.now.flights }
    {
        self.tickets.len() as u32
    }

    /// The number of the callback in flight at this place of their order; none past the last.
    pub fn nth(&self, place: u32) -> Option<u64>
        ensures number { result ≡ slice_get (numbers self.now.flights) place }
        ensures rising { IfSome result (λ n. (i m : ℕ) → i < place
            → slice_get (numbers self.now.flights) i ≡ Some m → m < n) }
    {
        let place = place as usize;
        if place < self.tickets.len() {
            Some(self.tickets[place].number)
        } else {
            None
        }
    }

    /// The next one's number.
    pub fn next(&self) -> u64
        ensures { result ≡ self.now.next }
    {
        self.next
    }

    /// A callback begins, and gets the next number.
    #[tactic(auto, using(crate::proofs::Kept::flights_length))]
    pub fn begin(&mut self, input: u32, envelope: Envelope, now: u64) -> Result<u64, BeginFault>
        requires { self.old.next < 2 ^ 64 - 1 }
        ensures number { IfOk result (λ n. n ≡ self.old.next) }
        ensures ok { OnOk result (self.new ≡ record {
          flights = self.old.flights ++ flight self.old.next input envelope now ∷ [];
          next = self.old.next + 1;
          limit = self.old.limit;
        }) }
        ensures err { OnErr result (self.new ≡ self.old) }
        ensures full { (result ≡ Err BeginFault.Full)
            ↔ (length self.old.flights ≡ self.old.limit) }
        ensures room { OnOk result (length self.old.flights < self.old.limit) }
    {
        if self.limit as usize <= self.tickets.len() {
            return Err(BeginFault::Full);
        }
        let entry = Entry {
            input,
            envelope,
            answers: taken(self.alloc, &mut self.room),
            delivered: now,
        };
        self.tickets.reserve(1)?;
        let key = self.entries.insert(entry)?;
        let number = self.next;
        self.tickets.push_reserved(Ticket { number, key });
        self.next += 1;
        Ok(number)
    }

    /// A callback in flight.
    pub fn entry(&self, number: u64) -> Option<&Entry>
        ensures { option_copied result ≡ option_map entry_of (flight_of number self.now.flights) }
    {
        match find(self.tickets.as_slice(), number) {
            Some(place) => self.entries.get(self.tickets[place].key),
            None => None,
        }
    }

    /// Gives a callback an answer more. The one error is want of memory.
    pub fn answer(&mut self, number: u64, answer: Answer) -> Result<(), NoMemory>
        requires { is_some (flight_of number self.old.flights) ≡ true }
        ensures ok { OnOk result (self.new ≡ record {
          flights = answered number answer self.old.flights;
          next = self.old.next;
          limit = self.old.limit;
        }) }
        ensures err { OnErr result (self.new ≡ self.old) }
    {
        match find(self.tickets.as_slice(), number) {
            Some(place) => push_answer(&mut self.entries, self.tickets[place].key, answer),
            None => Ok(()),
        }
    }

    /// Takes a callback's last answer back. It takes no memory.
    pub fn take_answer_back(&mut self, number: u64)
        ensures { self.new ≡ record {
          flights = unanswered number self.old.flights;
          next = self.old.next;
          limit = self.old.limit;
        } }
    {
        match find(self.tickets.as_slice(), number) {
            Some(place) => drop_answer(&mut self.entries, self.tickets[place].key),
            None => {}
        }
    }

    /// Ends a callback. It takes no memory.
    pub fn end(&mut self, number: u64) -> Option<Entry>
        ensures entry { result ≡ option_map entry_of (flight_of number self.old.flights) }
        ensures new { self.new ≡ record {
          flights = without number self.old.flights;
          next = self.old.next;
          limit = self.old.limit;
        } }
    {
        match find(self.tickets.as_slice(), number) {
            Some(place) => {
                let ticket = self.tickets.remove(place);
                self.entries.try_remove(ticket.key)
            }
            None => None,
        }
    }

    /// Keeps the room of a list of answers for a callback that begins later. It takes no memory.
    pub fn keep_room(&mut self, answers: Items<Answer>)
        ensures { self.new ≡ self.old }
    {
        self.room = answers.into_vec();
    }
}

/// An empty list, with the room that was kept.
fn taken(alloc: Global, room: &mut Vec<Answer>) -> Items<Answer>
    ensures { result ≡ [] }
{
    let mut answers = mem::replace(room, Vec::new(alloc));
    answers.clear();
    Items::from_vec(answers)
}

/// Where the ticket with this number stands.
fn find(tickets: &[Ticket], number: u64) -> Option<usize>
    ensures { result ≡ place_in number tickets.now }
{
    for i in 0..tickets.len() {
        if tickets[i].number == number {
            return Some(i);
        }
    }
    None
}

fn push_answer(entries: &mut Slab<Entry>, key: usize, answer: Answer) -> Result<(), NoMemory>
    ensures ok { OnOk result (entries.new ≡ with_more entries.old key answer) }
    ensures err { OnErr result (entries.new ≡ entries.old) }
{
    match entries.get_mut(key) {
        Some(entry) => entry.answers.push(answer),
        None => Ok(()),
    }
}

fn drop_answer(entries: &mut Slab<Entry>, key: usize)
    ensures { entries.new ≡ with_less entries.old key }
{
    if let Some(entry) = entries.get_mut(key) {
        entry.answers.drop_last();
    }
}
