// A set of keys.
ghost use Rattle.std.specs.Prelude.{◌≡◌, ◌++◌, not, map, IfOk, OnOk, OnErr, true, false};
ghost use Rattle.std.specs.FinMap as fin;
ghost use Rattle.kv_store.specs.Slots.{content_of};
ghost use Rattle.kv_store.specs.Tracked.{no_keys, is_in, with_key, unmarked, record_now};

use crate::slots::SlotMap;
use samza_model::{Bin, NoMemory, Record};
use std::alloc::Global;
use std::collections::BTreeSet;
use std::marker::Model;

/// Keys in the order of their bytes.
#[derive(Drop)]
pub(crate) struct KeySet {
    tree: BTreeSet<Bin>,
}

impl Model for KeySet {
    ghost use Rattle.std.specs.Coded.{coded_list, coded_ℕ};
    ghost use base.Stored.{coded_unit};
    ghost use Rattle.std.specs.FinMap as fin;
    ghost use Rattle.kv_store.specs.Tracked.{Keys, set_of};

    ghost Value = { Keys };

    ghost coded = { fin.code (coded_list coded_ℕ) coded_unit };

    ghost view = { λ s. set_of s.tree.keys };
}

impl KeySet {
    pub(crate) fn new(alloc: Global) -> KeySet
        ensures { result ≡ no_keys }
    {
        KeySet {
            tree: BTreeSet::new(alloc),
        }
    }

    pub(crate) fn len(&self) -> usize
        ensures { result ≡ fin.len self.now }
    {
        self.tree.len()
    }

    /// Puts the key in, and says whether it is new.
    pub(crate) fn add(&mut self, key: Bin) -> Result<bool, NoMemory>
        ensures ok { OnOk result (self.new ≡ with_key self.old key) }
        ensures fresh { IfOk result (λ fresh. fresh ≡ not (is_in self.old key)) }
        ensures err { OnErr result (self.new ≡ self.old) }
    {
        Ok(self.tree.insert(key)?)
    }

    /// Takes the key out, if that is asked.
    pub(crate) fn unmark(&mut self, key: &Bin, unmarks: bool)
        ensures { self.new ≡ unmarked self.old key.now unmarks }
    {
        if unmarks {
            self.tree.remove(key);
        }
    }

    pub(crate) fn clear(&mut self)
        ensures { self.new ≡ no_keys }
    {
        self.tree.clear();
    }

    /// A record for each key, with the value that it has in the slots.
    pub(crate) fn records(&self, alloc: Global, slots: &SlotMap) -> Result<Vec<Record>, NoMemory>
        ensures { IfOk result (λ records. records.items ≡ map (record_now (content_of slots.now))
            (fin.keys self.now)) }
    {
        let mut records = Vec::with_capacity(alloc, self.tree.len())?;
        for key in &self.tree {
            records.push(slots.record_of(alloc, key)?)?;
        }
        Ok(records)
    }

    /// Takes the slots of those keys out that have no value.
    pub(crate) fn drop_deleted(&self, slots: &mut SlotMap)
        ensures { content_of slots.new ≡ content_of slots.old }
    {
        for key in &self.tree {
            slots.drop_deleted(key);
        }
    }
}
