// Counts of calls and of faults, and which calls are to fail.
ghost use Rattle.std.specs.Prelude.{◌≡◌, ◌-◌, ℕ, Bool, true, false, if◌then◌else◌, ◌||◌, not};
ghost use Rattle.samza_model.specs.Counters.{next_number, added};
ghost use Rattle.disk_model.specs.Tallies.{fails_at, SameFailing};

use crate::DiskFault;

/// The counts of a disk's calls and faults, and the numbers of the calls that are to fail, counted from one on.
#[derive(Drop)]
pub(crate) struct Tally {
    pub(crate) calls: u64,
    pub(crate) faults: u64,
    pub(crate) from: u64,
    pub(crate) fail_at: Vec<u64>,
    pub(crate) stop_after: Option<u64>,
}

impl Tally {
    /// Whether the next call is to fail.
    fn is_failing(&self) -> bool
        ensures { result ≡ fails_at self.now.fail_at.items self.now.stop_after
            (self.now.calls - self.now.from) }
    {
        let number = self.calls.saturating_sub(self.from);
        if self.fail_at.contains(&number) {
            return true;
        }
        match self.stop_after {
            Some(count) => count <= number,
            None => false,
        }
    }

    /// Counts a call. It is true if the call is to fail.
    pub(crate) fn begin(&mut self) -> bool
        ensures fails { result ≡ fails_at self.old.fail_at.items self.old.stop_after
            (self.old.calls - self.old.from) }
        ensures calls { self.new.calls ≡ next_number self.old.calls }
        ensures faults { self.new.faults ≡ self.old.faults }
        ensures told { SameFailing self.old self.new }
    {
        let fails = self.is_failing();
        self.calls = self.calls.saturating_add(1);
        fails
    }

    /// Counts a call. It is true if the call is to fail, and then a fault counts too.
    pub(crate) fn fails(&mut self) -> bool
        ensures faults { self.new.faults
            ≡ (if result then next_number self.old.faults else self.old.faults) }
        ensures calls { self.new.calls ≡ next_number self.old.calls }
        ensures fails { result ≡ fails_at self.old.fail_at.items self.old.stop_after
            (self.old.calls - self.old.from) }
        ensures told { SameFailing self.old self.new }
    {
        let fails = self.begin();
        if fails {
            self.faults = self.faults.saturating_add(1);
        }
        fails
    }

    /// Counts from 0 on, with no call that is to fail.
    pub(crate) fn restart(&mut self)
        ensures calls { self.new.calls ≡ 0 }
        ensures faults { self.new.faults ≡ 0 }
        ensures none { (number : ℕ) → fails_at self.new.fail_at.items self.new.stop_after number
            ≡ false }
    {
        self.calls = 0;
        self.faults = 0;
        self.from = 0;
        self.fail_at.clear();
        self.stop_after = None;
    }

    /// Adds another's faults.
    pub(crate) fn add_faults(&mut self, more: u64)
        ensures faults { self.new.faults ≡ added self.old.faults more }
        ensures calls { self.new.calls ≡ self.old.calls }
        ensures told { SameFailing self.old self.new }
    {
        self.faults = self.faults.saturating_add(more);
    }

    /// The call's answer: the value where it was made and isn't to fail, and else a fault, which counts.
    pub(crate) fn answer<T: Drop>(
        &mut self,
        failing: bool,
        made: bool,
        value: T,
    ) -> Result<T, DiskFault>
        ensures answer { result ≡ (if failing || not made then Err DiskFault.Failed else Ok value) }
        ensures faults { self.new.faults
            ≡ (if failing || not made then next_number self.old.faults else self.old.faults) }
        ensures calls { self.new.calls ≡ self.old.calls }
        ensures told { SameFailing self.old self.new }
    {
        if failing || !made {
            self.faults = self.faults.saturating_add(1);
            return Err(DiskFault::Failed);
        }
        Ok(value)
    }
}
