// Why a core refuses.

use samza_model::{Answer, Items, NoMemory};

/// Why no message was delivered. Of those that hold the first one is told.
#[derive(Clone, Copy, Debug, PartialEq, Eq)]
pub enum DeliverFault {
    /// A callback or a window failed.
    Failed,
    /// An earlier commit answered `Device`: a unit's answer, and never a core's. Open the task anew.
    Broken,
    /// A window is open.
    Windowing,
    /// The input's next offset is its end.
    Ended,
    /// So many callbacks are in flight, as many as the setup allows.
    Full { in_flight: u32 },
    /// The input's next offset is as far from the first one that isn't complete as the setup allows.
    Spanned,
    /// A commit is due, and the setup has it await all callbacks in flight.
    Draining,
    NoMemory,
}

impl From<NoMemory> for DeliverFault {
    ghost use Rattle.std.specs.Prelude.{◌≡◌};
    ghost use Rattle.task_core.specs.declared.faults.DeliverFault.TheVariants.{NoMemory as NoRoom};

    ghost from_gives = { λ _ e. e ≡ NoRoom };

    fn from(_: NoMemory) -> Self {
        DeliverFault::NoMemory
    }
}

/// Why the next act of a callback wasn't made.
#[derive(Clone, Copy, Debug, PartialEq, Eq)]
pub enum ActFault {
    /// No callback with this number is in flight.
    Unknown,
    NoMemory,
}

impl From<NoMemory> for ActFault {
    ghost use Rattle.std.specs.Prelude.{◌≡◌};
    ghost use Rattle.task_core.specs.declared.faults.ActFault.TheVariants.{NoMemory as NoRoom};

    ghost from_gives = { λ _ e. e ≡ NoRoom };

    fn from(_: NoMemory) -> Self {
        ActFault::NoMemory
    }
}

/// Why there is no question.
#[derive(Clone, Copy, Debug, PartialEq, Eq)]
pub enum QuestionFault {
    /// The callback isn't in flight, or no window is open.
    Unknown,
    NoMemory,
}

impl From<NoMemory> for QuestionFault {
    ghost use Rattle.std.specs.Prelude.{◌≡◌};
    ghost use Rattle.task_core.specs.declared.faults.QuestionFault.TheVariants.{NoMemory as NoRoom};

    ghost from_gives = { λ _ e. e ≡ NoRoom };

    fn from(_: NoMemory) -> Self {
        QuestionFault::NoMemory
    }
}

/// Why an act wasn't applied.
#[derive(Debug, Drop)]
pub enum ApplyFault {
    /// No callback with the question's number and envelope is in flight, or, for a window's question, no window is open.
    Unknown,
    /// The turn was answered otherwise than the question says: so it was answered.
    Stale { answers: Items<Answer> },
    /// Memory is wanting.
    NoMemory,
}

impl From<NoMemory> for ApplyFault {
    ghost use Rattle.std.specs.Prelude.{◌≡◌};
    ghost use Rattle.task_core.specs.declared.faults.ApplyFault.TheVariants.{NoMemory as NoRoom};

    ghost from_gives = { λ _ e. e ≡ NoRoom };

    fn from(_: NoMemory) -> Self {
        ApplyFault::NoMemory
    }
}

/// Why no window was opened.
#[derive(Clone, Copy, Debug, PartialEq, Eq)]
pub enum OpenWindowFault {
    /// A turn failed.
    Failed,
    /// A window is open.
    Windowing,
    /// Callbacks are in flight, so many of them.
    Busy { in_flight: u32 },
}

/// Why no commit was planned.
#[derive(Clone, Copy, Debug, PartialEq, Eq)]
pub enum PlanFault {
    /// A turn failed.
    Failed,
    /// A window is open.
    Windowing,
    /// So many callbacks are in flight, which the setup allows at no commit.
    Busy { in_flight: u32 },
    NoMemory,
}

impl From<NoMemory> for PlanFault {
    ghost use Rattle.std.specs.Prelude.{◌≡◌};
    ghost use Rattle.task_core.specs.declared.faults.PlanFault.TheVariants.{NoMemory as NoRoom};

    ghost from_gives = { λ _ e. e ≡ NoRoom };

    fn from(_: NoMemory) -> Self {
        PlanFault::NoMemory
    }
}
