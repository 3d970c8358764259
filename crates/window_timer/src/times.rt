// What no event tells of a task.
ghost use Rattle.std.specs.Prelude.{◌≡◌, ◌||◌, false};
ghost use Rattle.window_timer.specs.Intervals.{passed};
ghost use Rattle.window_timer.specs.Times.{told, marked_due, window_begun, commit_made};

use crate::intervals::Every;

/// The moments that a task was told, in milliseconds, and whether somebody else asked it for a commit.
#[derive(Clone, Copy, Debug)]
pub struct Times {
    /// The moment last told.
    pub moment: u64,
    /// What runs since the last commit, or since the opening.
    pub commit: Every,
    /// What runs since the last window was opened, or since the opening.
    pub window: Every,
    /// A commit was asked for since the last one.
    pub marked: bool,
}

impl Times {
    /// Of a task that is opened at this moment and commits and opens windows at these intervals.
    pub fn new(commit: Option<u64>, window: Option<u64>, moment: u64) -> Times
        ensures { result ≡ record {
          moment = moment;
          commit = record { interval = commit; last = moment };
          window = record { interval = window; last = moment };
          marked = false;
        } }
    {
        Times {
            moment,
            commit: Every::new(commit, moment),
            window: Every::new(window, moment),
            marked: false,
        }
    }

    /// Hands in a moment. One that isn't later than the last one changes nothing.
    pub fn tell(&mut self, moment: u64)
        ensures { self.new ≡ told self.old moment }
    {
        if self.moment < moment {
            self.moment = moment;
        }
    }

    /// Asks for a commit.
    pub fn mark_due(&mut self)
        ensures { self.new ≡ marked_due self.old }
    {
        self.marked = true;
    }

    /// A window is opened.
    pub fn begin_window(&mut self)
        ensures { self.new ≡ window_begun self.old }
    {
        self.window.restart(self.moment);
    }

    /// A commit was made.
    pub fn committed(&mut self)
        ensures { self.new ≡ commit_made self.old }
    {
        self.commit.restart(self.moment);
        self.marked = false;
    }

    /// Whether a commit was asked for or its interval has passed.
    pub fn is_commit_due(&self) -> bool
        ensures { result ≡ (self.now.marked || passed self.now.commit self.now.moment) }
    {
        self.marked || self.commit.passed(self.moment)
    }

    /// Whether the interval of windows has passed.
    pub fn is_window_due(&self) -> bool
        ensures { result ≡ passed self.now.window self.now.moment }
    {
        self.window.passed(self.moment)
    }
}
