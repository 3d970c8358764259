// What holds of each lawful list of events.
ghost use Rattle.history_laws.specs.Answers.{HaveFewAnswers};
ghost use Rattle.history_laws.specs.Deliveries.{AreInOrder, AreOfOneInput};
ghost use Rattle.history_laws.specs.Fails.{FailsOnce, FailsOrEnds, HavePlaces, IsTheFolds};
ghost use Rattle.history_laws.specs.Fails.{NeverExpires, NeverFails};
ghost use Rattle.history_laws.specs.Lows.{IsLeast, IsUnique, IsEndWhereIdle};
ghost use Rattle.history_laws.specs.Folds.{IsFolded};

/// An input's low is the least offset, from its start on, that isn't covered, and no other offset
/// is. Where nothing is in flight and nothing failed it is the next offset to be delivered.
pub fn lows_are_least()
    ensures least { IsLeast }
    ensures unique { IsUnique }
    ensures idle { IsEndWhereIdle }
{}

/// At concurrency one, without windows, where nothing is in flight and nothing failed, the job did
/// the messages that were delivered, one after another.
pub fn content_is_the_fold()
    ensures { IsFolded }
{}

/// Each callback in flight has at most 1,023 answers.
pub fn few_answers()
    ensures { HaveFewAnswers }
{}

/// Where the setup has no time limit, the first failure isn't that a callback's time ran out.
pub fn untimed_never_expires()
    ensures { NeverExpires }
{}

/// Where there is one input, a callback fails at one of its offsets.
pub fn failures_have_places()
    ensures { HavePlaces }
{}

/// At concurrency one, without windows, a failure that isn't of a time that ran out is the job's
/// own: it did the messages that were delivered, one after another, up to the last, and failed that
/// one from what they left.
pub fn failure_is_the_folds()
    ensures { IsTheFolds }
{}

/// Where there is one input and its partition is told, at any concurrency, the messages that were
/// delivered are the partition's from the start on, in order.
pub fn delivered_in_order()
    ensures in_order { AreInOrder }
    ensures of_one_input { AreOfOneInput }
{}

/// At concurrency one, without windows or a time limit, where there is one input and the job can do
/// all of its messages, nothing fails.
pub fn folded_never_fails()
    ensures { NeverFails }
{}

/// At concurrency one, without windows or a time limit, where there is one input: all lists with a
/// failure fail at the same message and for the same reason, and then none comes to the input's
/// end.
pub fn fails_once()
    ensures once { FailsOnce }
    ensures or_ends { FailsOrEnds }
{}
