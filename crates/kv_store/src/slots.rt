// The tree under a table. A deleted key may stay in it, so that its value can be put back without memory.
ghost use Rattle.std.specs.Prelude.{◌≡◌, ◌+◌, ◌<◌, ◌≤◌, true, false, is_some, IsSome, IfOk, OnOk, OnErr, if◌then◌else◌};
ghost use Rattle.std.specs.Option.{option_map, option_copied, option_flatten};
ghost use Rattle.std.specs.FinMap as map;
ghost use Rattle.samza_model.specs.Content.{next_pair};
ghost use Rattle.kv_store.specs.Slots.{content_of, with_slot};
ghost use Rattle.kv_store.specs.Tracked.{record_now};

use samza_model::{Bin, NoMemory, Plain, Record};
use std::alloc::Global;
use std::collections::BTreeMap;
use std::marker::Model;

/// Keys in order, each with its value or with the mark that it was deleted, and the number of those with a value.
#[derive(Drop)]
pub(crate) struct SlotMap {
    tree: BTreeMap<Bin, Option<Bin>>,
    live: usize,
}

impl Model for SlotMap {
    ghost use Rattle.std.specs.Prelude.{ℕ, ◌≡◌};
    ghost use Rattle.std.specs.Coded.{coded_list, coded_ℕ, coded_option};
    ghost use Rattle.std.specs.FinMap as map;
    ghost use Rattle.kv_store.specs.Slots.{Slots, content_of};

    ghost Value = { Slots };

    ghost coded = { map.code (coded_list coded_ℕ) (coded_option (coded_list coded_ℕ)) };

    ghost view = { λ s. map.from_entries s.tree.entries };

    ghost invariant = { λ s. s.live ≡ map.len (content_of (map.from_entries s.tree.entries)) };
}

impl SlotMap {
    pub(crate) fn new(alloc: Global) -> SlotMap
        ensures { result ≡ map.empty }
    {
        SlotMap {
            tree: BTreeMap::new(alloc),
            live: 0,
        }
    }

    /// The key's value.
    pub(crate) fn get(&self, key: &Bin) -> Option<&Bin>
        ensures { option_copied result ≡ map.get (content_of self.now) key.now }
    {
        match self.tree.get(key) {
            Some(slot) => slot.as_ref(),
            None => None,
        }
    }

    /// The key with its value, or without one.
    pub(crate) fn record_of(&self, alloc: Global, key: &Bin) -> Result<Record, NoMemory>
        ensures { IfOk result (λ made. made ≡ record_now (content_of self.now) key.now) }
    {
        let value = match self.get(key) {
            Some(value) => Some(value.copy(alloc)?),
            None => None,
        };
        Ok(Record {
            key: key.copy(alloc)?,
            value,
        })
    }

    /// The pair with the least key that isn't below this one and has a value. It passes over the deleted keys between.
    pub(crate) fn next(&self, key: &Bin) -> Option<(&Bin, &Bin)>
        ensures { option_map (λ p. (p.0.now, p.1.now)) result ≡ next_pair (content_of self.now)
            key.now }
    {
        for (found, slot) in self.tree.range(key..) {
            if let Some(value) = slot {
                return Some((found, value));
            }
        }
        None
    }

    /// How many keys have a value.
    pub(crate) fn len(&self) -> usize
        ensures { result ≡ map.len (content_of self.now) }
    {
        self.live
    }

    /// Sets the key's slot, and gives the one that it had. Only a new key may be refused for want of memory.
    pub(crate) fn set(
        &mut self,
        key: Bin,
        slot: Option<Bin>,
    ) -> Result<Option<Option<Bin>>, NoMemory>
        ensures ok { OnOk result (self.new ≡ map.insert self.old key slot) }
        ensures had { IfOk result (λ had. had ≡ map.get self.old key) }
        ensures err { OnErr result (self.new ≡ self.old) }
        ensures absent { OnErr result (is_some (map.get self.old key) ≡ false) }
    {
        let has = slot.is_some();
        let old = self.tree.insert(key, slot)?;
        let had = has_value(&old);
        self.live = counted(self.live, self.tree.len(), had, has);
        Ok(old)
    }

    /// Takes the key's slot out.
    pub(crate) fn take(&mut self, key: &Bin)
        ensures { self.new ≡ map.remove self.old key.now }
    {
        let old = self.tree.remove(key);
        let had = has_value(&old);
        self.live = counted(self.live, self.tree.len(), had, false);
    }

    /// Gives the key the slot that it had. That takes no memory, since a slot is put back only where there is one.
    pub(crate) fn restore(&mut self, key: Bin, slot: Option<Option<Bin>>)
        requires { IsSome slot → map.contains_key self.old key ≡ true }
        ensures { self.new ≡ with_slot self.old key slot }
    {
        match slot {
            Some(value) => self.put_back(key, value),
            None => self.take(&key),
        }
    }

    fn put_back(&mut self, key: Bin, value: Option<Bin>)
        requires { map.contains_key self.old key ≡ true }
        ensures { self.new ≡ map.insert self.old key value }
    {
        let put = self.set(key, value).is_ok();
        prove!(put);
    }

    /// Takes the key's slot out where it has no value.
    pub(crate) fn drop_deleted(&mut self, key: &Bin)
        ensures { content_of self.new ≡ content_of self.old }
    {
        if self.get(key).is_none() {
            self.take(key);
        }
    }
}

fn has_value(slot: &Option<Option<Bin>>) -> bool
    ensures { result ≡ is_some (option_flatten slot.now) }
{
    match slot {
        Some(value) => value.is_some(),
        None => false,
    }
}

/// The count after one key's value came, went or was replaced, among so many keys.
fn counted(live: usize, keys: usize, had: bool, has: bool) -> usize
    requires room { live + (if has then 1 else 0) ≤ keys + (if had then 1 else 0) }
    requires counts { had ≡ true → 0 < live }
    ensures { result + (if had then 1 else 0) ≡ live + (if has then 1 else 0) }
{
    match (had, has) {
        (true, false) => live - 1,
        (false, true) => live + 1,
        _ => live,
    }
}
