// A count that stands still at its type's end.
ghost use Rattle.std.specs.Prelude.{◌≡◌};
ghost use Rattle.samza_model.specs.Counters.{next_number};

/// The count after one more.
pub(crate) fn one_more(count: u64) -> u64
    ensures { result ≡ next_number count }
{
    count.saturating_add(1)
}
