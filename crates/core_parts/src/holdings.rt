// What a task holds in memory: its stores, and what its outputs were sent.
ghost use Rattle.std.specs.Prelude.{ℕ, ◌≡◌, ◌<◌, ◌≤◌, length, true, Some, None, IfOk, IfSome, OnOk, OnErr};
ghost use Rattle.std.specs.FinMap as map;
ghost use Rattle.samza_model.specs.declared.acts.Act.{Act};
ghost use Rattle.samza_model.specs.Content.{answer_of, found, found_pair, next_pair};
ghost use Rattle.samza_model.specs.Limits.{act_fits, IsWithinLimits};
ghost use Rattle.kv_store.specs.Tracked.{no_keys};
ghost use Rattle.core_steps.specs.Cores.{IsCleared};
ghost use Rattle.core_steps.specs.Held.{state_of, tracked_at, contents_of, with_stored, with_sent, held_after, IsSized};

use kv_store::TrackedTable;
use output_log::Outputs;
use samza_model::{Act, Answer, Bin, NoMemory, Plain, Record, Setup};
use std::alloc::Global;
use std::marker::Model;

/// The stores and the outputs. Contracts see each store with its dirty keys, what each output was sent since the last
/// clear, oldest first, and how many records it was sent before.
#[derive(Drop)]
pub struct Holdings {
    alloc: Global,
    stores: Vec<TrackedTable>,
    outputs: Outputs,
}

impl Model for Holdings {
    ghost use Rattle.std.specs.Coded.{codes};
    ghost use Rattle.kv_store.specs.Tracked.{tracked_code};
    ghost use Rattle.core_steps.specs.Held.{Held};

    ghost Value = { Held };

    ghost coded = { Prim.hlevel (codes, tracked_code) };

    ghost view = { λ h. record { stores = h.stores.items; unsent = h.outputs.unsent; cleared = h.outputs.cleared } };
}

impl Holdings {
    /// These stores, in the setup's order, and these outputs.
    pub(crate) fn new(alloc: Global, stores: Vec<TrackedTable>, outputs: Outputs) -> Holdings
        ensures { result
            ≡ record { stores = stores.items; unsent = outputs.unsent; cleared = outputs.cleared } }
    {
        Holdings {
            alloc,
            stores,
            outputs,
        }
    }

    /// The stores, in the setup's order.
    pub fn stores(&self) -> &[TrackedTable]
        ensures { result.now ≡ self.now.stores }
    {
        self.stores.as_slice()
    }

    /// The outputs, in the setup's order.
    pub fn outputs(&self) -> &Outputs
        ensures { result.now ≡ record { unsent = self.now.unsent; cleared = self.now.cleared } }
    {
        &self.outputs
    }

    /// Sets a key of a store, or takes it away.
    fn store(&mut self, store: u32, key: Bin, value: Option<Bin>) -> Result<(), NoMemory>
        requires store { store < length self.old.stores }
        requires key { length key ≤ 1024 }
        requires value { IfSome value (λ v. length v ≤ 65536) }
        ensures ok { OnOk result (self.new ≡ with_stored self.old store key value) }
        ensures err { OnErr result (self.new ≡ self.old) }
    {
        let _undo = self.stores[store as usize].change(self.alloc, key, value)?;
        Ok(())
    }

    /// Sends a record to an output.
    fn send(&mut self, output: u32, body: Record) -> Result<(), NoMemory>
        requires output { output < length self.old.unsent }
        requires limits { IsWithinLimits body }
        ensures ok { OnOk result (self.new ≡ with_sent self.old output body) }
        ensures err { OnErr result (self.new ≡ self.old) }
    {
        self.outputs.send(output, body)
    }

    /// What an act leaves: a key of a store set or taken away, a record sent to an output, or all as it was. The one error is want
    /// of memory, and it leaves all as it was.
    pub(crate) fn change(&mut self, setup: &Setup, act: Act) -> Result<(), NoMemory>
        requires fits { act_fits setup.now act ≡ true }
        requires sized { IsSized setup.now self.old }
        ensures ok { OnOk result (self.new ≡ held_after self.old act) }
        ensures err { OnErr result (self.new ≡ self.old) }
    {
        match act {
            Act::Put { store, key, value } => self.store(store, key, Some(value)),
            Act::Delete { store, key } => self.store(store, key, None),
            Act::Send { output, body } => self.send(output, body),
            Act::Get { .. }
            | Act::Next { .. }
            | Act::AskCommit(_)
            | Act::AskShutdown(_)
            | Act::Done
            | Act::Fail(_) => Ok(()),
        }
    }

    /// Counts what was sent and lets it go, and makes no key dirty. It takes no memory.
    pub fn clear(&mut self)
        ensures { IsCleared self.old self.new }
    {
        flush_all(&mut self.stores);
        self.outputs.clear();
    }

    fn look_up(&self, store: u32, key: &Bin) -> Result<Answer, NoMemory>
        requires { store < length self.now.stores }
        ensures { IfOk result (λ a. a ≡ found (map.get (tracked_at
            self.now.stores store).content key.now)) }
    {
        match self.stores[store as usize].get(key) {
            Some(value) => Ok(Answer::Found(value.copy(self.alloc)?)),
            None => Ok(Answer::Missing),
        }
    }

    fn look_next(&self, store: u32, key: &Bin) -> Result<Answer, NoMemory>
        requires { store < length self.now.stores }
        ensures { IfOk result (λ a. a ≡ found_pair (next_pair (tracked_at
            self.now.stores store).content key.now)) }
    {
        match self.stores[store as usize].next(key) {
            Some((key, value)) => Ok(Answer::Pair(key.copy(self.alloc)?, value.copy(self.alloc)?)),
            None => Ok(Answer::Missing),
        }
    }

    fn get(&self, store: u32, key: &Bin) -> Result<Answer, NoMemory>
        requires { store < length self.now.stores }
        ensures { IfOk result (λ a. a ≡ answer_of (state_of self.now)
            (Act.Get store key.now)) }
    {
        match self.look_up(store, key) {
            Ok(answer) => Ok(answer),
            Err(fault) => Err(fault),
        }
    }

    fn next(&self, store: u32, key: &Bin) -> Result<Answer, NoMemory>
        requires { store < length self.now.stores }
        ensures { IfOk result (λ a. a ≡ answer_of (state_of self.now)
            (Act.Next store key.now)) }
    {
        match self.look_next(store, key) {
            Ok(answer) => Ok(answer),
            Err(fault) => Err(fault),
        }
    }

    /// What an act is answered, with memory of its own. The one error is want of memory.
    #[tactic(auto, unfolding(samza_model::specs::Content::answer_of))]
    pub fn answer(&self, setup: &Setup, act: &Act) -> Result<Answer, NoMemory>
        requires fits { act_fits setup.now act.now ≡ true }
        requires sized { IsSized setup.now self.now }
        ensures { IfOk result (λ a. a ≡ answer_of (state_of self.now) act.now) }
    {
        match act {
            Act::Get { store, key } => self.get(*store, key),
            Act::Next { store, key } => self.next(*store, key),
            Act::Put { .. } => Ok(Answer::Noted),
            Act::Delete { .. } => Ok(Answer::Noted),
            Act::Send { .. } => Ok(Answer::Noted),
            Act::AskCommit(_) => Ok(Answer::Noted),
            Act::AskShutdown(_) => Ok(Answer::Noted),
            Act::Done => Ok(Answer::Noted),
            Act::Fail(_) => Ok(Answer::Noted),
        }
    }
}

fn flush_all(stores: &mut Vec<TrackedTable>)
    ensures contents { contents_of stores.new.items ≡ contents_of stores.old.items }
    ensures clean { (i : ℕ) → i < length stores.new.items
        → (tracked_at stores.new.items i).dirty ≡ no_keys }
{
    for i in 0..stores.len() {
        stores[i].flushed();
    }
}
