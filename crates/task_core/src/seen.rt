// What callers see of a core's offsets, callbacks and counts.
ghost use Rattle.std.specs.Prelude.{ℕ, ◌≡◌, ◌↔◌, ◌<◌, ◌≤◌, length, Some, None, IfSome, slice_get};
ghost use Rattle.std.specs.FinMap as map;
ghost use Rattle.callback_manager.specs.Callbacks.{numbers};
ghost use Rattle.output_log.specs.Outputs.{sent_count};
ghost use Rattle.core_steps.specs.Held.{tracked_at};
ghost use Rattle.task_core.specs.Seen.{lane_state, sent_of};

use crate::cores::Core;

/// Where an input stands, in offsets.
#[derive(Clone, Copy, Debug, PartialEq, Eq)]
pub struct LaneState {
    /// The first one that the core was given.
    pub start: u64,
    /// The first one that isn't covered.
    pub low: u64,
    /// The next one to be delivered.
    pub next: u64,
    /// The one behind the last.
    pub end: u64,
}

impl Core {
    /// Where an input stands.
    pub fn lane(&self, input: u32) -> LaneState
        requires { input < length self.now.starts }
        ensures { result ≡ lane_state self.now input }
    {
        let place = input as usize;
        LaneState {
            start: self.starts[place],
            low: self.low(input),
            next: self.next(input),
            end: self.ends[place],
        }
    }

    /// The number of the callback in flight at this place of their order, in which the numbers rise; none past the last.
    pub fn in_flight_at(&self, place: u32) -> Option<u64>
        ensures number { result ≡ slice_get (numbers self.now.callbacks.flights) place }
        ensures rising { IfSome result (λ n. (i m : ℕ) → i < place
            → slice_get (numbers self.now.callbacks.flights) i ≡ Some m → m < n) }
        ensures none { (result ≡ None) ↔ (length self.now.callbacks.flights ≤ place) }
    {
        self.callbacks.nth(place)
    }

    /// How many keys a store has.
    pub fn keys(&self, store: u32) -> u64
        requires { store < length self.now.held.stores }
        ensures { result ≡ map.len (tracked_at self.now.held.stores store).content }
    {
        self.holdings.stores()[store as usize].len()
    }

    /// How many records an output was sent in all, since the core was made.
    pub fn sent(&self, output: u32) -> u64
        requires { output < length self.now.held.unsent }
        ensures { result ≡ sent_count (sent_of self.now.held) output }
    {
        self.holdings.outputs().sent(output)
    }

    /// The last mark's number, 0 where there is none.
    pub fn last_id(&self) -> u64
        ensures { result ≡ self.now.last }
    {
        self.last
    }
}
