// What a unit is told, and what it tells of itself.
ghost use Rattle.std.specs.Prelude.{◌≡◌, ◌↔◌, ◌<◌, ◌≤◌, ℕ, length, Some, None, IfSome, false, slice_get};
ghost use Rattle.std.specs.FinMap as map;
ghost use Rattle.callback_manager.specs.Callbacks.{numbers};
ghost use Rattle.core_steps.specs.Cores.{IsCore, Outside, with_times};
ghost use Rattle.core_steps.specs.Held.{tracked_at};
ghost use Rattle.output_log.specs.Outputs.{sent_count};
ghost use Rattle.samza_model.specs.Files.{Image};
ghost use Rattle.samza_model.specs.Histories.{History};
ghost use Rattle.samza_model.specs.Marks.{last_mark};
ghost use Rattle.samza_model.specs.Restored.{id_of};
ghost use Rattle.task_core.specs.Seen.{lane_state, sent_of};
ghost use Rattle.task_core.specs.Telling.{status_of};
ghost use Rattle.unit_logs.specs.Standing.{IsSetUp};
ghost use Rattle.unit_steps.specs.Moments.{SameOfTask};
ghost use Rattle.unit_steps.specs.Units.{Keeps, Stands};
ghost use Rattle.window_timer.specs.Times.{told, marked_due};

use crate::units::TaskUnit;
use disk_model::{Disk, Shelf};
use samza_model::{Job, Setup};
use task_core::{LaneState, Status};

impl<'j, J: Job, D: Disk, S: Shelf> TaskUnit<'j, J, D, S> {
    /// Hands in a moment, in milliseconds. One that isn't later than the last one changes nothing. It takes no memory.
    pub fn tell(&mut self, moment: u64)
        ensures told { self.new.core ≡ with_times self.old.core (told self.old.core.times moment) }
        ensures keeps { Keeps J.meaning D.tells D.reads D.call_number D.images D.images_since
            self.old self.new }
    {
        self.core.tell(moment);
    }

    /// Asks for a commit. It takes no memory.
    pub fn mark_due(&mut self)
        ensures marked { self.new.core
            ≡ with_times self.old.core (marked_due self.old.core.times) }
        ensures keeps { Keeps J.meaning D.tells D.reads D.call_number D.images D.images_since
            self.old self.new }
    {
        self.core.mark_due();
    }

    /// What it tells of itself. It takes no memory.
    pub fn status(&self) -> Status
        ensures status { result ≡ status_of self.now.core }
        // There are events by which it stands.
        ensures stands { (o : Outside) × (t : History) × Stands J.meaning D.tells D.reads D.call_number
            D.images D.images_since o self.now t }
        ensures core { IsCore self.now.core }
        ensures set_up { IsSetUp self.now.core.setup }
    {
        self.core.status()
    }

    /// Whether an earlier commit answered `Device`. Such a task commits and delivers nothing more; open it anew.
    pub fn is_broken(&self) -> bool
        ensures { result ≡ self.now.broken }
    {
        self.broken
    }

    /// Where an input stands.
    pub fn lane(&self, input: u32) -> LaneState
        requires { input < length self.now.core.starts }
        ensures { result ≡ lane_state self.now.core input }
    {
        self.core.lane(input)
    }

    /// The number of the callback in flight at this place of their order, in which the numbers rise; none past the last.
    pub fn in_flight_at(&self, place: u32) -> Option<u64>
        ensures number { result ≡ slice_get (numbers self.now.core.callbacks.flights) place }
        ensures rising { IfSome result (λ n. (i m : ℕ) → i < place
            → slice_get (numbers self.now.core.callbacks.flights) i ≡ Some m → m < n) }
        ensures none { (result ≡ None) ↔ (length self.now.core.callbacks.flights ≤ place) }
    {
        self.core.in_flight_at(place)
    }

    /// How many keys a store has.
    pub fn keys(&self, store: u32) -> u64
        requires { store < length self.now.core.held.stores }
        ensures { result ≡ map.len (tracked_at self.now.core.held.stores store).content }
    {
        self.core.keys(store)
    }

    /// How many records an output was sent since the opening, committed or not.
    pub fn sent(&self, output: u32) -> u64
        requires { output < length self.now.core.held.unsent }
        ensures { result ≡ sent_count (sent_of self.now.core.held) output }
    {
        self.core.sent(output)
    }

    /// The setup that the unit was opened with.
    pub fn setup(&self) -> &Setup
        ensures setup { result.now ≡ self.now.core.setup }
        ensures set_up { IsSetUp self.now.core.setup }
        ensures core { IsCore self.now.core }
    {
        let _number = self.core.number();
        self.core.setup()
    }

    /// The number of the last mark, or 0 where there is none.
    pub fn last_id(&self) -> u64
        ensures last { result ≡ id_of (last_mark self.now.marks) }
    {
        self.core.last_id()
    }

    /// The disk's count of faults.
    pub fn disk_faults(&self) -> u64
        ensures { result ≡ D.fault_count self.now.disk }
    {
        self.disk.faults()
    }

    /// The shelf's count of faults.
    pub fn shelf_faults(&self) -> u64
        ensures { result ≡ S.fault_count self.now.shelf }
    {
        self.shelf.faults()
    }

    /// The disk and the shelf, given back. While no commit answered `Device`, a crash leaves the task's files as they read.
    pub fn close(self) -> (D, S)
        ensures disk { result.0 ≡ self.entry.disk }
        ensures shelf { result.1 ≡ self.entry.shelf }
        ensures durable { self.entry.broken ≡ false → D.tells → (image : Image)
            → D.images self.entry.disk image
            → SameOfTask (length self.entry.core.setup.stores)
            (length self.entry.core.setup.outputs) (D.reads self.entry.disk) image }
    {
        (self.disk, self.shelf)
    }
}
