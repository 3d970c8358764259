// What one output was sent.
ghost use Rattle.std.specs.Prelude.{◌≡◌, ◌+◌, ◌-◌, ◌++◌, ◌∷◌, [], List, length, take, IfOk, OnOk, OnErr};
ghost use Rattle.samza_model.specs.declared.messages.Record.{Record as RecordValue};
ghost use Rattle.samza_model.specs.Limits.{IsWithinLimits, frame_batch};
ghost use Rattle.log_frame.specs.Cuts.{IsCut};
ghost use Rattle.log_frame.specs.Frame.{AreFrames};

use log_frame::{Frame, frames_of};
use samza_model::{FRAME_BATCH, NoMemory, Record};
use std::alloc::Global;
use std::marker::Model;

/// The records that an output was sent since it was cleared, oldest first, and how many were cleared before.
#[derive(Debug, Drop)]
pub(crate) struct Queue {
    records: Vec<Record>,
    cleared: u64,
}

impl Model for Queue {
    ghost use Rattle.output_log.specs.Queues.{Queued, IsQueue};

    ghost Value = { Queued };

    ghost view = { λ q. record { records = q.records.items; cleared = q.cleared } };

    ghost invariant = { λ q. IsQueue q.records.items q.cleared };
}

impl Queue {
    pub(crate) fn new(alloc: Global) -> Queue
        ensures records { result.records ≡ [] }
        ensures cleared { result.cleared ≡ 0 }
    {
        Queue {
            records: Vec::new(alloc),
            cleared: 0,
        }
    }

    /// How many records it was sent in all.
    pub(crate) fn sent(&self) -> u64
        ensures { result ≡ self.now.cleared + length self.now.records }
    {
        self.cleared + self.records.len() as u64
    }

    /// A record more, unless memory is wanting or the count of all would pass 2^64 - 1.
    pub(crate) fn push(&mut self, body: Record) -> Result<(), NoMemory>
        requires { IsWithinLimits body }
        ensures records { OnOk result (self.new.records ≡ self.old.records ++ body ∷ []) }
        ensures cleared { OnOk result (self.new.cleared ≡ self.old.cleared) }
        ensures err { OnErr result (self.new ≡ self.old) }
    {
        if self.sent() == u64::MAX {
            return Err(NoMemory);
        }
        self.records.push(body)?;
        Ok(())
    }

    /// Takes the last record out, if there is one.
    pub(crate) fn drop_last(&mut self)
        ensures records { self.new.records ≡ take (length self.old.records - 1) self.old.records }
        ensures cleared { self.new.cleared ≡ self.old.cleared }
    {
        let _ = self.records.pop();
    }

    /// Counts the records and lets them go.
    pub(crate) fn clear(&mut self)
        ensures records { self.new.records ≡ [] }
        ensures cleared { self.new.cleared ≡ self.old.cleared + length self.old.records }
    {
        self.cleared += self.records.len() as u64;
        self.records.clear();
    }

    /// The records as frames of at most 500.
    pub(crate) fn frames(&self, alloc: Global) -> Result<Vec<Frame>, NoMemory>
        ensures { IfOk result (λ frames. (lists : List (List RecordValue))
            × IsCut frame_batch self.now.records lists × AreFrames frames.items lists) }
    {
        frames_of(alloc, self.records.as_slice(), FRAME_BATCH)
    }
}
