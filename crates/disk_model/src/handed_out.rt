// What a host holds by name, and what of it is out.
ghost use Rattle.std.specs.Prelude.{◌≡◌, ◌≢◌, ◌-◌, ◌^◌, ◌≤◌, ◌⊎◌, true, false, None, Some, IsSome, MatchOption, OnOk, OnErr};
ghost use Rattle.disk_model.specs.Handles.{AsMany, NoneOut, OneMore};
ghost use Rattle.disk_model.specs.HandedOut.{held_under, disks_of, shelves_of};
ghost use Rattle.disk_model.specs.declared.names.DiskName.{DiskName as DiskNameValue};

use crate::DiskName;
use crate::names_held::{has_slot, held_of, one_in, one_out, put_held, take_held};
use crate::slots::Slot;
use samza_model::{NoMemory, Plain};
use std::alloc::Global;

/// What a host holds, at most one value of each name, while it isn't lent. Of each name it counts the disks and the
/// shelves that are out.
#[derive(Drop)]
pub struct HandedOut<T> {
    slots: Vec<Slot<T>>,
}

impl<T: Drop> HandedOut<T> {
    /// Nothing is held and nothing is out.
    pub fn new(alloc: Global) -> HandedOut<T>
        ensures nothing { (n : DiskNameValue) → held_under result n ≡ None }
        ensures none_out { NoneOut (disks_of result) (shelves_of result) }
    {
        HandedOut {
            slots: Vec::new(alloc),
        }
    }

    /// Whether a value of this name was ever added: it is held, or out.
    pub fn is_known(&self, name: &DiskName) -> bool
        ensures held_or_out { result ≡ true → disks_of self.now name.now ≡ 0
            → IsSome (held_under self.now name.now) }
        ensures not_held { result ≡ false → held_under self.now name.now ≡ None }
        ensures not_out { result ≡ false → disks_of self.now name.now ≡ 0 }
    {
        has_slot(self.slots.as_slice(), name)
    }

    /// What is held of a name, if there is something and it isn't out.
    pub fn held(&self, name: &DiskName) -> Option<&T>
        ensures { MatchOption result (held_under self.now name.now ≡ None)
            (λ t. held_under self.now name.now ≡ Some t.now) }
    {
        held_of(self.slots.as_slice(), name)
    }

    /// Holds this of a name of which nothing is held or out.
    pub fn add(&mut self, alloc: Global, name: &DiskName, value: T) -> Result<(), NoMemory>
        requires not_held { held_under self.old name.now ≡ None }
        requires not_out { disks_of self.old name.now ≡ 0 }
        ensures held { OnOk result (held_under self.new name.now ≡ Some value) }
        ensures refused { OnErr result (held_under self.new name.now ≡ None) }
        ensures elsewhere { (n : DiskNameValue) → n ≢ name.now
            → held_under self.new n ≡ held_under self.old n }
        ensures disks { AsMany (disks_of self.old) (disks_of self.new) }
        ensures shelves { AsMany (shelves_of self.old) (shelves_of self.new) }
    {
        let name = name.copy(alloc)?;
        self.slots.push(Slot {
            name,
            held: Some(value),
            shelves: 0,
        })?;
        Ok(())
    }

    /// Lends what is held of a name, which then is out.
    pub fn lend_disk(&mut self, name: &DiskName) -> Option<T>
        ensures value { result ≡ held_under self.old name.now }
        ensures gone { held_under self.new name.now ≡ None }
        ensures elsewhere { (n : DiskNameValue) → n ≢ name.now
            → held_under self.new n ≡ held_under self.old n }
        ensures lent { IsSome result
            → OneMore name.now (disks_of self.old) (disks_of self.new) }
        ensures refused { result ≡ None → AsMany (disks_of self.old) (disks_of self.new) }
        ensures shelves { AsMany (shelves_of self.old) (shelves_of self.new) }
    {
        take_held(self.slots.as_mut_slice(), name)
    }

    /// Takes back what is out of a name, and holds it.
    pub fn take_disk(&mut self, name: &DiskName, value: T)
        requires out { 1 ≤ disks_of self.old name.now }
        ensures held { held_under self.new name.now ≡ Some value }
        ensures elsewhere { (n : DiskNameValue) → n ≢ name.now
            → held_under self.new n ≡ held_under self.old n }
        ensures taken { OneMore name.now (disks_of self.new) (disks_of self.old) }
        ensures shelves { AsMany (shelves_of self.old) (shelves_of self.new) }
    {
        put_held(self.slots.as_mut_slice(), name, value);
    }

    /// Counts a shelf that goes out. It is false where nothing of the name was added, or the count stands at its end.
    pub fn lend_shelf(&mut self, name: &DiskName) -> bool
        ensures lent { result ≡ true
            → OneMore name.now (shelves_of self.old) (shelves_of self.new) }
        ensures refused { result ≡ false → AsMany (shelves_of self.old) (shelves_of self.new) }
        ensures held { (n : DiskNameValue) → held_under self.new n ≡ held_under self.old n }
        ensures disks { AsMany (disks_of self.old) (disks_of self.new) }
    {
        one_out(self.slots.as_mut_slice(), name)
    }

    /// Counts a shelf that came back.
    pub fn take_shelf(&mut self, name: &DiskName)
        requires out { 1 ≤ shelves_of self.old name.now }
        ensures taken { OneMore name.now (shelves_of self.new) (shelves_of self.old) }
        ensures held { (n : DiskNameValue) → held_under self.new n ≡ held_under self.old n }
        ensures disks { AsMany (disks_of self.old) (disks_of self.new) }
    {
        one_in(self.slots.as_mut_slice(), name);
    }
}
