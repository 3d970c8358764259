// What an act did to its turn.
ghost use Rattle.std.specs.Prelude.{◌≡◌};
ghost use Rattle.task_core.specs.Acting.{ask_of};

use samza_model::{Act, Scope};

/// What an act that was answered asks the container for.
#[derive(Clone, Copy, Debug, PartialEq, Eq)]
pub enum Ask {
    Commit(Scope),
    Shutdown(Scope),
}

/// What an act did to its turn.
#[derive(Clone, Copy, Debug, PartialEq, Eq)]
pub struct Applied {
    /// The turn ended, by `Done` or by failing.
    pub ended: bool,
    /// The turn failed.
    pub failed: bool,
    /// What the act asked for, if it didn't fail the turn.
    pub ask: Option<Ask>,
}

/// What an act asks the container for.
pub(crate) fn ask_of(act: &Act) -> Option<Ask>
    ensures { result ≡ ask_of act.now }
{
    match act {
        Act::AskCommit(scope) => Some(Ask::Commit(*scope)),
        Act::AskShutdown(scope) => Some(Ask::Shutdown(*scope)),
        Act::Get { .. }
        | Act::Next { .. }
        | Act::Put { .. }
        | Act::Delete { .. }
        | Act::Send { .. }
        | Act::Done
        | Act::Fail(_) => None,
    }
}
