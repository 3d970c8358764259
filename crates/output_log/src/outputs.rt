// What each output of a task was sent.
ghost use Rattle.std.specs.Prelude.{◌≡◌, ◌<◌, ℕ, [], List, length, IfOk, OnOk, OnErr};
ghost use Rattle.samza_model.specs.declared.messages.Record.{Record as RecordValue};
ghost use Rattle.samza_model.specs.Content.{sent_at};
ghost use Rattle.samza_model.specs.Limits.{IsWithinLimits, frame_batch};
ghost use Rattle.log_frame.specs.Cuts.{IsCut};
ghost use Rattle.log_frame.specs.Frame.{AreFrames};
ghost use Rattle.output_log.specs.Outputs.{cleared_at, sent_count, with_sent, without_last, IsCleared};

use crate::queues::Queue;
use log_frame::Frame;
use samza_model::{NoMemory, Record};
use std::alloc::Global;
use std::marker::Model;

/// What each of a task's outputs was sent. Contracts see the records sent since the last `clear`, oldest first, and how
/// many were cleared before.
///
/// An output is named by its place in the setup's order.
#[derive(Debug, Drop)]
pub struct Outputs {
    queues: Vec<Queue>,
}

impl Model for Outputs {
    ghost use Rattle.std.specs.Prelude.{◌<◌, ◌^◌, length};
    ghost use Rattle.output_log.specs.Outputs.{Sent};
    ghost use Rattle.output_log.specs.Queues.{sent_of};

    ghost Value = { Sent };

    ghost view = { λ o. sent_of o.queues.items };

    ghost invariant = { λ o. length o.queues.items < 2 ^ 32 };
}

impl Outputs {
    /// As many outputs, to which nothing was sent. The one error is want of memory.
    pub fn new(alloc: Global, count: u32) -> Result<Outputs, NoMemory>
        ensures outputs { IfOk result (λ o. length o.unsent ≡ count) }
        ensures counts { IfOk result (λ o. length o.cleared ≡ count) }
        ensures none_sent { IfOk result (λ o. (j : ℕ) → j < count → sent_at o.unsent j ≡ []) }
        ensures none_cleared { IfOk result (λ o. (j : ℕ) → j < count → cleared_at o.cleared j ≡ 0) }
    {
        let mut queues = Vec::new(alloc);
        for _j in 0..count {
            queues.push(Queue::new(alloc))?;
        }
        Ok(Outputs { queues })
    }

    /// How many outputs there are.
    pub fn count(&self) -> u32
        ensures outputs { result ≡ length self.now.unsent }
        ensures counts { result ≡ length self.now.cleared }
    {
        self.queues.len() as u32
    }

    /// Sends a record to an output. A key has at most 1,024 bytes, and a value at most 65,536.
    ///
    /// The one error is want of memory; it also comes where the output's count of all records would pass 2^64 - 1.
    pub fn send(&mut self, output: u32, body: Record) -> Result<(), NoMemory>
        requires output { output < length self.old.unsent }
        requires limits { IsWithinLimits body }
        ensures ok { OnOk result (self.new ≡ with_sent self.old output body) }
        ensures err { OnErr result (self.new ≡ self.old) }
    {
        self.queues[output as usize].push(body)
    }

    /// Takes the last record that an output was sent back, if one wasn't cleared. It takes no memory.
    pub fn take_back(&mut self, output: u32)
        requires { output < length self.old.unsent }
        ensures { self.new ≡ without_last self.old output }
    {
        self.queues[output as usize].drop_last();
    }

    /// What an output was sent since the last `clear`, in frames of 500 records, of which the last may have fewer. The one
    /// error is want of memory.
    pub fn frames(&self, alloc: Global, output: u32) -> Result<Vec<Frame>, NoMemory>
        requires { output < length self.now.unsent }
        ensures { IfOk result (λ frames. (lists : List (List RecordValue))
            × IsCut frame_batch (sent_at self.now.unsent output) lists
            × AreFrames frames.items lists) }
    {
        self.queues[output as usize].frames(alloc)
    }

    /// Counts what was sent, and lets the records go. It takes no memory.
    pub fn clear(&mut self)
        ensures cleared { IsCleared self.old self.new }
        ensures counts { length self.new.cleared ≡ length self.old.unsent }
    {
        for queue in self.queues.iter_mut() {
            queue.clear();
        }
    }

    /// How many records an output was sent in all, cleared or not.
    pub fn sent(&self, output: u32) -> u64
        requires { output < length self.now.unsent }
        ensures { result ≡ sent_count self.now output }
    {
        self.queues[output as usize].sent()
    }
}
