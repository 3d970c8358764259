// How many calls failed, and the first of them.
ghost use Rattle.std.specs.Prelude.{◌≡◌, ◌≤◌, None};

use crate::counters::one_more;

/// How many calls failed, and what is kept of the first. Where one failed, something is kept. It takes no memory.
#[derive(Drop)]
pub(crate) struct Failures<F> {
    pub(crate) count: u64,
    pub(crate) first: Option<F>,
    ghost kept: { 1 ≤ count → first ≡ None → ⊥ },
}

impl<F: Drop> Failures<F> {
    ghost use Rattle.std.specs.Prelude.{Some};
    ghost use Rattle.std.specs.Option.{option_or};
    ghost use Rattle.samza_model.specs.Counters.{added, Rose};

    /// No call failed.
    pub(crate) fn none() -> Failures<F>
        ensures count { result.count ≡ 0 }
        ensures first { result.first ≡ None }
    {
        Failures {
            count: 0,
            first: None,
        }
    }

    /// One more call failed.
    pub(crate) fn add(&mut self, failure: F)
        ensures count { Rose self.old.count self.new.count }
        ensures later { self.old.count ≤ self.new.count }
        ensures first { self.new.first ≡ option_or self.old.first (Some failure) }
    {
        if self.first.is_none() {
            self.first = Some(failure);
        }
        self.count = one_more(self.count);
    }

    /// The calls failed that others counted.
    pub(crate) fn join(&mut self, others: Failures<F>)
        ensures count { self.new.count ≡ added self.old.count others.count }
        ensures first { self.new.first ≡ option_or self.old.first others.first }
    {
        let count = self.count.saturating_add(others.count);
        let first = others.first;
        if self.first.is_none() {
            self.first = first;
        }
        self.count = count;
    }
}
