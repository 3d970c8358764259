// A plain table.
ghost use Rattle.std.specs.Prelude.{◌≡◌, ◌↔◌, IsTrue, OnOk, OnErr, Some, None, IfOk};
ghost use Rattle.std.specs.Option.{option_map, option_copied};
ghost use Rattle.std.specs.FinMap as map;
ghost use Rattle.kv_store.specs.Slots.{content_of};
ghost use Rattle.kv_store.specs.Tracked.{record_now};
ghost use Rattle.samza_model.specs.Content.{nothing_stored, updated, next_pair};

use crate::slots::SlotMap;
use samza_model::{Bin, NoMemory, Record};
use std::alloc::Global;
use std::marker::Model;

/// A sorted map from keys to values. Contracts see the finite map.
#[derive(Drop)]
pub struct Table {
    slots: SlotMap,
}

impl Model for Table {
    ghost use Rattle.std.specs.Coded.{coded_list, coded_ℕ};
    ghost use Rattle.std.specs.FinMap as map;
    ghost use Rattle.samza_model.specs.Content.{Content};
    ghost use Rattle.kv_store.specs.Slots.{content_of};

    ghost Value = { Content };

    ghost coded = { map.code (coded_list coded_ℕ) (coded_list coded_ℕ) };

    ghost view = { λ t. content_of t.slots };
}

impl Table {
    /// An empty table.
    pub fn new(alloc: Global) -> Table
        ensures { result ≡ nothing_stored }
    {
        Table {
            slots: SlotMap::new(alloc),
        }
    }

    /// The key's value; none where the key isn't there.
    pub fn get(&self, key: &Bin) -> Option<&Bin>
        ensures { option_copied result ≡ map.get self.now key.now }
    {
        self.slots.get(key)
    }

    /// The key with its value, or without one. Its one error is want of memory.
    pub fn record_of(&self, alloc: Global, key: &Bin) -> Result<Record, NoMemory>
        ensures { IfOk result (λ made. made ≡ record_now self.now key.now) }
    {
        self.slots.record_of(alloc, key)
    }

    /// The pair with the least key that isn't below this one.
    pub fn next(&self, key: &Bin) -> Option<(&Bin, &Bin)>
        ensures { option_map (λ p. (p.0.now, p.1.now)) result ≡ next_pair self.now key.now }
    {
        self.slots.next(key)
    }

    /// Sets the key's value. Its one error is want of memory.
    pub fn put(&mut self, key: Bin, value: Bin) -> Result<(), NoMemory>
        ensures ok { OnOk result (self.new ≡ updated self.old key (Some value)) }
        ensures err { OnErr result (self.new ≡ self.old) }
    {
        self.slots.set(key, Some(value))?;
        Ok(())
    }

    /// Takes the key away, if it is there.
    pub fn delete(&mut self, key: &Bin)
        ensures { self.new ≡ updated self.old key.now None }
    {
        self.slots.take(key);
    }

    /// Sets the key's value, or takes the key away where there is none. Its one error is want of memory.
    pub fn update(&mut self, key: Bin, value: Option<Bin>) -> Result<(), NoMemory>
        ensures ok { OnOk result (self.new ≡ updated self.old key value) }
        ensures err { OnErr result (self.new ≡ self.old) }
    {
        match value {
            Some(value) => self.put(key, value),
            None => {
                self.delete(&key);
                Ok(())
            }
        }
    }

    /// How many keys there are.
    pub fn len(&self) -> u64
        ensures { result ≡ map.len self.now }
    {
        self.slots.len() as u64
    }

    pub fn is_empty(&self) -> bool
        ensures { IsTrue result ↔ (map.len self.now ≡ 0) }
    {
        self.slots.len() == 0
    }

    pub(crate) fn into_slots(self) -> SlotMap
        ensures { content_of result ≡ self }
    {
        let Table { slots } = self;
        slots
    }
}
