// The state behind events.
ghost use Rattle.std.specs.Prelude.{◌≡◌, IfOk, OnOk};
ghost use Rattle.samza_model.specs.Events.{state_after};
ghost use Rattle.slow_model.specs.Steps.{acted};

use crate::PlainState;
use samza_model::{Event, NoMemory, Plain};
use std::alloc::Global;

/// Makes the act of an event, if it has one.
fn make_act(alloc: Global, state: &mut PlainState, event: &Event) -> Result<(), NoMemory>
    ensures { OnOk result (state.new ≡ acted event.now state.old) }
{
    match event {
        Event::Did { act, .. } => state.make(act.copy(alloc)?),
        Event::WindowDid { act, .. } => state.make(act.copy(alloc)?),
        _ => Ok(()),
    }
}

/// What the stores hold and the outputs were sent behind these events, from a state on.
pub fn state_behind(
    alloc: Global,
    state: PlainState,
    events: &[Event],
) -> Result<PlainState, NoMemory>
    ensures { IfOk result (λ behind. behind ≡ state_after state events.now) }
{
    let Some((event, older)) = events.split_first() else {
        return Ok(state);
    };
    let mut behind = state_behind(alloc, state, older)?;
    make_act(alloc, &mut behind, event)?;
    Ok(behind)
}
