// What acts ask for.
ghost use Rattle.std.specs.Prelude.{◌≡◌, Some, false, true};
ghost use Rattle.samza_model.specs.Requests.{asks_here, asks_commit, greater_scope, shutdown_of};

use samza_model::{Act, Event, Scope};

/// Whether an act asks for a commit of its task.
pub(crate) fn asks_here(act: &Act) -> bool
    ensures { result ≡ asks_here (Some act.now) }
{
    match act {
        Act::AskCommit(Scope::CurrentTask) => true,
        Act::AskCommit(Scope::AllTasks)
        | Act::Get { .. }
        | Act::Next { .. }
        | Act::Put { .. }
        | Act::Delete { .. }
        | Act::Send { .. }
        | Act::AskShutdown(_)
        | Act::Done
        | Act::Fail(_) => false,
    }
}

/// Whether an event's act asks for a commit of its task.
pub(crate) fn asks(event: &Event) -> bool
    ensures { result ≡ asks_commit event.now }
{
    match event {
        Event::Did { act, .. } => asks_here(act),
        Event::WindowDid { act, .. } => asks_here(act),
        Event::Deliver { .. } => false,
        Event::Complete(_) => false,
        Event::Failed(_) => false,
        Event::WindowEnded => false,
    }
}

/// The scope of the shutdown that an act asks for, if it asks for one.
pub fn shutdown_of(act: &Act) -> Option<Scope>
    ensures { result ≡ shutdown_of (Some act.now) }
{
    match act {
        Act::AskShutdown(scope) => Some(*scope),
        Act::Get { .. }
        | Act::Next { .. }
        | Act::Put { .. }
        | Act::Delete { .. }
        | Act::Send { .. }
        | Act::AskCommit(_)
        | Act::Done
        | Act::Fail(_) => None,
    }
}

/// The greater of two scopes, of which each may be missing: all tasks above the current one, and that above none.
pub fn greater_scope(a: Option<Scope>, b: Option<Scope>) -> Option<Scope>
    ensures { result ≡ greater_scope a b }
{
    match (a, b) {
        (Some(Scope::AllTasks), _) => a,
        (_, Some(Scope::AllTasks)) => b,
        (None, _) => b,
        (Some(Scope::CurrentTask), _) => a,
    }
}
