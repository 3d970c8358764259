// The acts of a unit's job.
ghost use Rattle.std.specs.Prelude.{◌≡◌, ◌↔◌, None, Err, Some, IfOk, OnOk, OnErr};
ghost use Rattle.samza_model.specs.declared.flights.Flight.{Flight};
ghost use Rattle.samza_model.specs.Events.{flight_of};
ghost use Rattle.event_unit.specs.Acts.{act_event};
ghost use Rattle.task_core.specs.Acting.{applied_now};
ghost use Rattle.unit_steps.specs.Units.{Adds};

use crate::units::TaskUnit;
use disk_model::{Disk, Shelf};
use samza_model::Job;
use task_core::{ActFault, Applied};

impl<'j, J: Job, D: Disk, S: Shelf> TaskUnit<'j, J, D, S> {
    /// Makes the job's next act on a callback in flight, on the entry as it stands: it is answered, or it ends the turn.
    ///
    /// It copies neither the envelope nor the answers. `Unknown` comes where the callback isn't in flight. After a refusal all
    /// is as before.
    pub fn act_now(&mut self, number: u64) -> Result<Applied, ActFault>
        ensures added { (f : Flight) → flight_of number self.old.core.callbacks.flights ≡ Some f
            → OnOk result (Adds J.meaning D.tells D.reads D.call_number D.images D.images_since
            self.old self.new (act_event (J.meaning self.old.job) self.old.core f)) }
        ensures applied { (f : Flight) → flight_of number self.old.core.callbacks.flights ≡ Some f
            → IfOk result (λ a. a ≡ applied_now (J.meaning self.old.job) self.old.core f) }
        ensures unknown { (result ≡ Err ActFault.Unknown)
            ↔ (flight_of number self.old.core.callbacks.flights ≡ None) }
        ensures kept { OnErr result (self.new ≡ self.old) }
    {
        let applied = self.core.act_now(self.job, number)?;
        Ok(applied)
    }
}
