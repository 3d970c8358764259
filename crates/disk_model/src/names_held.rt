// Finding and changing what a host holds by name.
ghost use Rattle.std.specs.Prelude.{true, false, ◌≡◌, ◌+◌, ◌-◌, ◌<◌, ◌≤◌, ◌^◌, ◌⊎◌, ◌++◌, ◌∷◌, [], ℕ, List, Option, Some, None, length, MatchOption, IfNone, IfSome};
ghost use Rattle.disk_model.specs.Slots.{slot_at, held_in, outs_in, shelves_in, IsPlace, ChangesSlot};

use crate::DiskName;
use crate::slots::Slot;
use samza_model::Plain;

/// The place of the first slot of this name.
pub(crate) fn place_of<T>(slots: &[Slot<T>], name: &DiskName) -> Option<usize>
    ensures { MatchOption result (slot_at slots.now name.now ≡ None)
        (λ i. IsPlace slots.now name.now i) }
{
    for i in 0..slots.len() {
        let slot = &slots[i];
        if slot.name.same(name) {
            return Some(i);
        }
    }
    None
}

/// Takes out what stands under a name.
pub(crate) fn take_held<T: Drop>(slots: &mut [Slot<T>], name: &DiskName) -> Option<T>
    ensures value { result ≡ held_in (slot_at slots.old name.now) }
    ensures changed { ChangesSlot name.now
        (λ s. record { name = s.name; held = None; shelves = s.shelves }) slots.old slots.new }
    ensures none { slot_at slots.old name.now ≡ None → slots.new ≡ slots.old }
{
    let place = place_of(slots, name)?;
    let slot = &mut slots[place];
    slot.held.take()
}

/// Puts a value under a name whose slot is there.
pub(crate) fn put_held<T: Drop>(slots: &mut [Slot<T>], name: &DiskName, value: T)
    ensures changed { ChangesSlot name.now
        (λ s. record { name = s.name; held = Some value; shelves = s.shelves }) slots.old
        slots.new }
    ensures none { slot_at slots.old name.now ≡ None → slots.new ≡ slots.old }
{
    if let Some(place) = place_of(slots, name) {
        let slot = &mut slots[place];
        slot.held = Some(value);
    }
}

/// Counts one shelf more that is out. It is false, and nothing changes, where no slot has the name or the count
/// stands at its end.
pub(crate) fn one_out<T>(slots: &mut [Slot<T>], name: &DiskName) -> bool
    ensures changed { result ≡ true
        → ChangesSlot name.now
        (λ s. record { name = s.name; held = s.held; shelves = s.shelves + 1 }) slots.old
        slots.new }
    ensures there { result ≡ true → slot_at slots.old name.now ≡ None → ⊥ }
    ensures refused { result ≡ false → slots.new ≡ slots.old }
    ensures cause { result ≡ false → (slot_at slots.old name.now ≡ None)
        ⊎ (shelves_in (slot_at slots.old name.now) ≡ 2 ^ 64 - 1) }
{
    let Some(place) = place_of(slots, name) else {
        return false;
    };
    let slot = &mut slots[place];
    if slot.shelves == u64::MAX {
        return false;
    }
    slot.shelves += 1;
    true
}

/// Counts one shelf less that is out.
pub(crate) fn one_in<T>(slots: &mut [Slot<T>], name: &DiskName)
    requires { 1 ≤ shelves_in (slot_at slots.old name.now) }
    ensures changed { ChangesSlot name.now
        (λ s. record { name = s.name; held = s.held; shelves = s.shelves - 1 }) slots.old
        slots.new }
{
    if let Some(place) = place_of(slots, name) {
        let slot = &mut slots[place];
        slot.shelves = slot.shelves.saturating_sub(1);
    }
}

/// What stands under a name, if it is there and not out.
pub(crate) fn held_of<'a, T>(slots: &'a [Slot<T>], name: &DiskName) -> Option<&'a T>
    ensures { MatchOption result (held_in (slot_at slots.now name.now) ≡ None)
        (λ t. held_in (slot_at slots.now name.now) ≡ Some t.now) }
{
    let place = place_of(slots, name)?;
    let slot = &slots[place];
    slot.held.as_ref()
}

/// Whether a slot has this name.
pub(crate) fn has_slot<T>(slots: &[Slot<T>], name: &DiskName) -> bool
    ensures there { result ≡ true → slot_at slots.now name.now ≡ None → ⊥ }
    ensures none { result ≡ false → slot_at slots.now name.now ≡ None }
{
    match place_of(slots, name) {
        Some(_) => true,
        None => false,
    }
}
