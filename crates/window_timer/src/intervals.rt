// An interval that passes again and again.
ghost use Rattle.std.specs.Prelude.{◌≡◌};
ghost use Rattle.window_timer.specs.Intervals.{passed};

/// An interval in milliseconds, and the moment from which it runs; it never passes where there is none.
#[derive(Clone, Copy, Debug)]
pub struct Every {
    pub interval: Option<u64>,
    pub last: u64,
}

impl Every {
    /// An interval that runs from this moment on.
    pub fn new(interval: Option<u64>, now: u64) -> Every
        ensures { result ≡ record { interval = interval; last = now } }
    {
        Every {
            interval,
            last: now,
        }
    }

    /// Whether it has passed by this moment: there is an interval, and at least so much time went by since it began.
    pub fn passed(&self, now: u64) -> bool
        ensures { result ≡ passed self.now now }
    {
        match self.interval {
            Some(every) => every <= now.saturating_sub(self.last),
            None => false,
        }
    }

    /// It runs from this moment on.
    pub fn restart(&mut self, now: u64)
        ensures { self.new ≡ record { interval = self.old.interval; last = now } }
    {
        self.last = now;
    }
}
