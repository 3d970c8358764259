// A table that knows which keys changed since the last commit.
ghost use Rattle.std.specs.Prelude.{◌≡◌, ◌≤◌, ◌↔◌, IsTrue, length, IfOk, IfSome, OnOk, OnErr};
ghost use Rattle.std.specs.List.{AllByRecursion};
ghost use Rattle.std.specs.Option.{option_map, option_copied};
ghost use Rattle.std.specs.FinMap as map;
ghost use Rattle.samza_model.specs.Content.{Content, nothing_stored, next_pair, replayed};
ghost use Rattle.samza_model.specs.Limits.{IsWithinLimits};
ghost use Rattle.kv_store.specs.Tracked.{Tracked, IsDirty, with_change, undone, no_keys, unlogged_records, AgreesOnClean, AreWithinLimits};

use crate::Table;
use crate::keys::KeySet;
use crate::slots::SlotMap;
use samza_model::{Bin, NoMemory, Plain, Record};
use std::alloc::Global;
use std::marker::Model;

/// A table with the set of its dirty keys: those that were set or taken away since the last commit. Contracts see both.
///
/// A deleted key keeps a place until `flushed`, so that `take_back` needs no memory. `next` passes over such places.
#[derive(Drop)]
pub struct TrackedTable {
    slots: SlotMap,
    dirty: KeySet,
}

impl Model for TrackedTable {
    ghost use Rattle.kv_store.specs.Slots.{content_of};
    ghost use Rattle.kv_store.specs.Tracked.{Tracked, tracked_code, IsTracked};

    ghost Value = { Tracked };

    ghost coded = { tracked_code };

    ghost view = { λ t. record { content = content_of t.slots; dirty = t.dirty } };

    ghost invariant = { λ t. IsTracked t.slots t.dirty };
}

/// What takes one change of a `TrackedTable` back.
#[derive(Drop)]
pub struct Undo {
    key: Bin,
    slot: Option<Option<Bin>>,
    unmarks: bool,
}

impl Model for Undo {
    ghost use Rattle.std.specs.Option.{option_flatten};
    ghost use Rattle.kv_store.specs.Tracked.{Reversal, IsUndo};

    ghost Value = { Reversal };

    ghost view = { λ u. record { key = u.key; value = option_flatten u.slot; unmarks = u.unmarks } };

    ghost invariant = { λ u. IsUndo u.key u.slot u.unmarks };
}

impl TrackedTable {
    /// An empty table in which no key is dirty.
    pub fn new(alloc: Global) -> TrackedTable
        ensures content { result.content ≡ nothing_stored }
        ensures dirty { result.dirty ≡ no_keys }
    {
        TrackedTable {
            slots: SlotMap::new(alloc),
            dirty: KeySet::new(alloc),
        }
    }

    /// The table, in which no key is dirty. It takes no memory and copies nothing.
    pub fn with(alloc: Global, table: Table) -> TrackedTable
        requires { AreWithinLimits table }
        ensures content { result.content ≡ table }
        ensures dirty { result.dirty ≡ no_keys }
    {
        TrackedTable {
            slots: table.into_slots(),
            dirty: KeySet::new(alloc),
        }
    }

    /// The key's value; none where the key isn't there.
    pub fn get(&self, key: &Bin) -> Option<&Bin>
        ensures { option_copied result ≡ map.get self.now.content key.now }
    {
        self.slots.get(key)
    }

    /// The pair with the least key that isn't below this one.
    pub fn next(&self, key: &Bin) -> Option<(&Bin, &Bin)>
        ensures { option_map (λ p. (p.0.now, p.1.now)) result ≡ next_pair self.now.content key.now }
    {
        self.slots.next(key)
    }

    /// How many keys there are.
    pub fn len(&self) -> u64
        ensures { result ≡ map.len self.now.content }
    {
        self.slots.len() as u64
    }

    pub fn is_empty(&self) -> bool
        ensures { IsTrue result ↔ (map.len self.now.content ≡ 0) }
    {
        self.slots.len() == 0
    }

    /// How many keys are dirty.
    pub fn dirty(&self) -> u64
        ensures { result ≡ map.len self.now.dirty }
    {
        self.dirty.len() as u64
    }

    /// Sets the key's value, or takes the key away where there is none, and gives what takes that back.
    ///
    /// A key has at most 1,024 bytes, and a value at most 65,536. Its one error is want of memory.
    pub fn change(&mut self, alloc: Global, key: Bin, value: Option<Bin>) -> Result<Undo, NoMemory>
        requires key_fits { length key ≤ 1024 }
        requires value_fits { IfSome value (λ v. length v ≤ 65536) }

        ensures ok { OnOk result (self.new ≡ with_change self.old key value) }
        ensures can_undo { IfOk result (λ undo. IsDirty self.new undo.key) }
        ensures undoes { IfOk result (λ undo. undone self.new undo ≡ self.old) }
        ensures of_key { IfOk result (λ undo. undo.key ≡ key) }
        ensures err { OnErr result (self.new ≡ self.old) }
    {
        let name = key.copy(alloc)?;
        let marked = key.copy(alloc)?;
        let fresh = self.dirty.add(marked)?;
        match self.slots.set(key, value) {
            Ok(slot) => Ok(Undo {
                key: name,
                slot,
                unmarks: fresh,
            }),
            Err(fault) => {
                self.dirty.unmark(&name, fresh);
                Err(fault)
            }
        }
    }

    /// Takes a change back. It takes no memory. Changes are taken back newest first.
    pub fn take_back(&mut self, undo: Undo)
        requires { IsDirty self.old undo.key }
        ensures { self.new ≡ undone self.old undo }
    {
        let Undo { key, slot, unmarks } = undo;
        self.dirty.unmark(&key, unmarks);
        self.slots.restore(key, slot);
    }

    /// A record for each dirty key, in the keys' order, with the key's value now. Written behind a changelog that is up
    /// to date but for these keys, they bring it up to date. Its one error is want of memory.
    pub fn unlogged(&self, alloc: Global) -> Result<Vec<Record>, NoMemory>
        ensures exact { IfOk result (λ records. records.items ≡ unlogged_records self.now) }
        ensures replay { IfOk result (λ records. (logged : Content) → AgreesOnClean self.now logged
            → replayed logged records.items ≡ self.now.content) }
        ensures limits { IfOk result (λ records. AllByRecursion IsWithinLimits records.items) }
    {
        self.dirty.records(alloc, &self.slots)
    }

    /// No key is dirty from now on. It takes no memory, and its time grows with the number of dirty keys.
    pub fn flushed(&mut self)
        ensures content { self.new.content ≡ self.old.content }
        ensures dirty { self.new.dirty ≡ no_keys }
    {
        self.dirty.drop_deleted(&mut self.slots);
        self.dirty.clear();
    }
}
