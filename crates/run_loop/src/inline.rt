// A run on one thread.
ghost use Rattle.std.specs.Prelude.{◌≡◌, [], ◌∷◌, length, All};
ghost use Rattle.run_loop.specs.Runs.{IsGoing, Runs};
ghost use Rattle.run_loop.specs.Stops.{WhyStopped};
ghost use Rattle.unit_steps.specs.Units.{UnitValue};

use crate::stops::Stop;
use crate::turns::run_turns;
use disk_model::{Disk, Shelf};
use edge_io::Turns;
use event_unit::TaskUnit;
use samza_model::Job;

/// The units behind a run, and how it ended.
#[derive(Drop)]
pub struct RunEnd<'j, J: Job, D: Disk, S: Shelf> {
    pub units: Vec<TaskUnit<'j, J, D, S>>,
    pub stop: Stop,
}

/// Runs a task to the end of its input, or until an act asks for a shutdown.
///
/// At each turn it commits if a commit is due; then it delivers a message if one may be delivered, or makes the next act of
/// the callback in flight that `turns` picks; where neither is left it commits for the last time and ends. A turn that fails
/// stops the run at once, with nothing committed behind it, and so does a commit that isn't made. It waits for nobody, and
/// always returns.
pub fn run_inline<'j, J: Job, D: Disk, S: Shelf, T: Turns>(
    units: Vec<TaskUnit<'j, J, D, S>>,
    turns: &mut T,
) -> RunEnd<'j, J, D, S>
    requires one { length units.items ≡ 1 }
    requires going { All IsGoing units.items }
    ensures ran { (old : UnitValue J.Plain D S) → units.entry.items ≡ old ∷ []
        → (new : UnitValue J.Plain D S) × (result.units.items ≡ new ∷ [])
        × Runs J.meaning D.tells D.reads D.call_number D.images D.images_since D.name
        D.fault_count old new
        × WhyStopped D.tells D.reads D.fault_count old new result.stop }
{
    let mut units = units;
    let stop = run_turns(&mut units[0], turns);
    RunEnd { units, stop }
}
