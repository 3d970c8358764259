// What a core is told, and what it tells of itself.
ghost use Rattle.std.specs.Prelude.{◌≡◌};
ghost use Rattle.window_timer.specs.Times.{told, marked_due};
ghost use Rattle.core_steps.specs.Cores.{IsCore, Keeps, with_times};
ghost use Rattle.core_steps.specs.Times.{is_due};
ghost use Rattle.task_core.specs.Telling.{status_of};

use crate::cores::Core;
use samza_model::{Failure, Scope};

/// What a container asks of a task between its calls.
#[derive(Clone, Copy, Debug, PartialEq, Eq)]
pub struct Status {
    /// How many callbacks are in flight.
    pub in_flight: u32,
    /// A commit is due.
    pub due: bool,
    /// The interval of windows has passed.
    pub window_due: bool,
    /// A window is open.
    pub in_window: bool,
    /// The first failure, if there is one.
    pub failed: Option<Failure>,
    /// The greatest scope of a shutdown that an act asked for.
    pub asked: Option<Scope>,
}

impl Core {
    /// Hands in a moment, in milliseconds. One that isn't later than the last one changes nothing. It takes no memory.
    pub fn tell(&mut self, moment: u64)
        ensures told { self.new ≡ with_times self.old (told self.old.times moment) }
        ensures keeps { Keeps self.old self.new }
    {
        self.times.tell(moment);
    }

    /// Asks for a commit. It takes no memory.
    pub fn mark_due(&mut self)
        ensures marked { self.new ≡ with_times self.old (marked_due self.old.times) }
        ensures keeps { Keeps self.old self.new }
    {
        self.times.mark_due();
    }

    /// Whether a commit is due: an act since the last mark asked for it, or the events since then are too many or too
    /// large, or somebody else asked for it, or its interval has passed.
    pub fn is_due(&self) -> bool
        ensures { result ≡ is_due self.now.since self.now.times }
    {
        self.journal.is_due() || self.times.is_commit_due()
    }

    /// What it tells of itself. It takes no memory, and walks over nothing.
    pub fn status(&self) -> Status
        ensures status { result ≡ status_of self.now }
        ensures core { IsCore self.now }
    {
        Status {
            in_flight: self.callbacks.count(),
            due: self.is_due(),
            window_due: self.times.is_window_due(),
            in_window: self.window.is_some(),
            failed: self.failed,
            asked: self.asked,
        }
    }
}
