// The state of a job as a plain value, and what an act does to it.
ghost use Rattle.std.specs.Prelude.{◌≡◌, ◌++◌, ◌∷◌, [], slice_set, IfOk, OnOk};
ghost use Rattle.std.specs.FinMap as map;
ghost use Rattle.samza_model.specs.Content.{changed, answer_of, found, found_pair, next_pair, updated, store_at, sent_at};

use kv_store::Table;
use samza_model::{Act, Answer, Bin, Items, NoMemory, Plain, Record};
use std::alloc::Global;
use std::marker::Model;

/// What each store holds, and what each output was sent, oldest first. Contracts see the `State` of the model.
#[derive(Drop)]
pub struct PlainState {
    stores: Vec<Table>,
    sent: Vec<Items<Record>>,
}

impl Model for PlainState {
    ghost use Rattle.std.specs.Coded.{codes};
    ghost use Rattle.samza_model.specs.Content.{State, content_code};

    ghost Value = { State };

    ghost coded = { Prim.hlevel (codes, content_code) };

    ghost view = { λ s. record { stores = s.stores.items; sent = s.sent.items } };
}

impl PlainState {
    pub fn of(stores: Vec<Table>, sent: Vec<Items<Record>>) -> PlainState
        ensures { result ≡ record { stores = stores.items; sent = sent.items } }
    {
        PlainState { stores, sent }
    }

    pub fn stores(&self) -> &[Table]
        ensures { result.now ≡ self.now.stores }
    {
        self.stores.as_slice()
    }

    pub fn sent(&self) -> &[Items<Record>]
        ensures { result.now ≡ self.now.sent }
    {
        self.sent.as_slice()
    }

    fn found_at(&self, alloc: Global, store: u32, key: &Bin) -> Result<Answer, NoMemory>
        ensures { IfOk result
            (λ answer. answer ≡ found (map.get (store_at self.now.stores store) key.now)) }
    {
        let number = store as usize;
        if number >= self.stores.len() {
            return Ok(Answer::Missing);
        }
        match self.stores[number].get(key) {
            Some(value) => Ok(Answer::Found(value.copy(alloc)?)),
            None => Ok(Answer::Missing),
        }
    }

    fn next_at(&self, alloc: Global, store: u32, key: &Bin) -> Result<Answer, NoMemory>
        ensures { IfOk result
            (λ answer. answer ≡ found_pair (next_pair (store_at self.now.stores store) key.now)) }
    {
        let number = store as usize;
        if number >= self.stores.len() {
            return Ok(Answer::Missing);
        }
        match self.stores[number].next(key) {
            Some((key, value)) => Ok(Answer::Pair(key.copy(alloc)?, value.copy(alloc)?)),
            None => Ok(Answer::Missing),
        }
    }

    /// What an act is answered. A store that isn't there has no key.
    pub fn answer_to(&self, alloc: Global, act: &Act) -> Result<Answer, NoMemory>
        ensures { IfOk result (λ answer. answer ≡ answer_of self.now act.now) }
    {
        match act {
            Act::Get { store, key } => self.found_at(alloc, *store, key),
            Act::Next { store, key } => self.next_at(alloc, *store, key),
            _ => Ok(Answer::Noted),
        }
    }

    fn set(&mut self, store: u32, key: Bin, value: Option<Bin>) -> Result<(), NoMemory>
        ensures { OnOk result
            (self.new ≡ record {
              stores = slice_set self.old.stores store
                  (updated (store_at self.old.stores store) key value);
              sent = self.old.sent;
            }) }
    {
        let number = store as usize;
        if number < self.stores.len() {
            self.stores[number].update(key, value)?;
        }
        Ok(())
    }

    fn send(&mut self, output: u32, body: Record) -> Result<(), NoMemory>
        ensures { OnOk result
            (self.new ≡ record {
              stores = self.old.stores;
              sent = slice_set self.old.sent output
                  (sent_at self.old.sent output ++ body ∷ []);
            }) }
    {
        let number = output as usize;
        if number < self.sent.len() {
            self.sent[number].push(body)?;
        }
        Ok(())
    }

    /// Makes an act. One on a store or an output that isn't there does nothing.
    pub fn make(&mut self, act: Act) -> Result<(), NoMemory>
        ensures { OnOk result (self.new ≡ changed self.old act) }
    {
        match act {
            Act::Put { store, key, value } => self.set(store, key, Some(value)),
            Act::Delete { store, key } => self.set(store, key, None),
            Act::Send { output, body } => self.send(output, body),
            _ => Ok(()),
        }
    }
}
