// The frames of what the outputs were sent.
ghost use Rattle.std.specs.Prelude.{IfOk};
ghost use Rattle.core_plans.specs.Plans.{PlansSends};

use log_frame::Frame;
use output_log::Outputs;
use samza_model::{Items, NoMemory, put};
use std::alloc::Global;

/// The frames of what each output was sent, of at most 500 records each.
pub(crate) fn plan_sends(alloc: Global, outputs: &Outputs) -> Result<Vec<Items<Frame>>, NoMemory>
    ensures { IfOk result (λ r. PlansSends outputs.now.unsent r.items) }
{
    let mut frames = Vec::new(alloc);
    for output in 0..outputs.count() {
        let more = outputs.frames(alloc, output)?;
        put(&mut frames, Items::from_vec(more))?;
    }
    Ok(frames)
}
