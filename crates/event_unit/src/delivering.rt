// A unit's messages are delivered.
ghost use Rattle.std.specs.Prelude.{◌≡◌, ◌≢◌, ◌↔◌, ◌<◌, Some, None, Err, false, length, IfOk, OnOk, OnErr, slice_get};
ghost use Rattle.samza_model.specs.declared.messages.Record.{Record as RecordValue};
ghost use Rattle.core_steps.specs.Cores.{IsCore, next_at, deliver_event};
ghost use Rattle.task_core.specs.declared.faults.DeliverFault.{DeliverFault as DeliverFaultValue};
ghost use Rattle.event_unit.specs.Delivering.{unit_refusal};
ghost use Rattle.unit_steps.specs.Units.{Adds};

use crate::units::TaskUnit;
use disk_model::{Disk, Shelf};
use samza_model::{Job, NoMemory, Plain, Record};
use std::alloc::Global;
use task_core::{Core, DeliverFault};

/// A copy of the message at an offset.
fn copy_at(alloc: Global, messages: &[Record], offset: u64) -> Result<Record, NoMemory>
    requires { offset < length messages.now }
    ensures { IfOk result (λ m. slice_get messages.now offset ≡ Some m) }
{
    messages[offset as usize].copy(alloc)
}

/// Why no message may be delivered; none where one may.
fn refusal(broken: bool, core: &Core, input: u32) -> Option<DeliverFault>
    requires { input < length core.now.starts }
    ensures refusal { result ≡ unit_refusal broken core.now input }
    ensures core { IsCore core.now }
{
    let _number = core.number();
    if core.is_failed() {
        Some(DeliverFault::Failed)
    } else if broken {
        Some(DeliverFault::Broken)
    } else {
        core.refusal(input)
    }
}

impl<'j, J: Job, D: Disk, S: Shelf> TaskUnit<'j, J, D, S> {
    /// Delivers the next message of an input, and tells the callback's number. It makes no call on the disk.
    ///
    /// `Failed` comes where a callback or a window failed, then `Broken` where an earlier commit answered `Device`, then
    /// `Windowing`, `Ended`, `Full`, `Spanned` and `Draining` as of a core, and `NoMemory` last. After a refusal all is as
    /// before.
    pub fn deliver(&mut self, input: u32) -> Result<u64, DeliverFault>
        requires { input < length self.old.core.starts }
        ensures added { OnOk result ((m : RecordValue)
            × (slice_get self.old.messages (next_at self.old.core input) ≡ Some m)
            × Adds J.meaning D.tells D.reads D.call_number D.images D.images_since
            self.old self.new (deliver_event self.old.core input m)) }
        ensures number { IfOk result (λ n. n ≡ self.old.core.callbacks.next) }
        ensures ok { OnOk result (unit_refusal self.old.broken self.old.core input ≡ None) }
        ensures refused { (e : DeliverFaultValue) → e ≢ DeliverFaultValue.NoMemory
            → ((result ≡ Err e) ↔ (unit_refusal self.old.broken self.old.core input ≡ Some e)) }
        ensures kept { OnErr result (self.new ≡ self.old) }
    {
        if let Some(fault) = refusal(self.broken, &self.core, input) {
            return Err(fault);
        }
        let next = self.core.next(input);
        let body = copy_at(self.alloc, self.messages.as_slice(), next)?;
        let number = match self.core.deliver(input, body) {
            Ok(number) => number,
            Err(_) => return Err(DeliverFault::NoMemory),
        };
        Ok(number)
    }
}
