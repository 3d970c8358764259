// Which calls of the disks and shelves of a name are to fail.
ghost use Rattle.std.specs.Prelude.{◌≡◌, ◌≢◌, ℕ, Some, None, IfOk, OnOk, OnErr};
ghost use Rattle.disk_model.specs.Arms.{said_fails};
ghost use Rattle.disk_model.specs.Slots.{slot_at, held_in};
ghost use Rattle.disk_model.specs.Tallies.{fails_at};
ghost use Rattle.disk_model.specs.declared.names.DiskName.{DiskName as DiskNameValue};

use crate::DiskName;
use crate::names_held::{has_slot, held_of, put_held, take_held};
use crate::slots::Slot;
use samza_model::{NoMemory, Plain};
use std::alloc::Global;

/// The numbers of the calls that fail on a handle, and how many go well at most.
#[derive(Drop)]
pub(crate) struct Failing {
    pub(crate) fail_at: Vec<u64>,
    pub(crate) stop_after: Option<u64>,
}

/// A copy of what was said of a name: no call fails where nothing was.
pub(crate) fn failing_of(
    alloc: Global,
    arms: &[Slot<Failing>],
    name: &DiskName,
) -> Result<Failing, NoMemory>
    ensures { IfOk result (λ f. (number : ℕ)
        → fails_at f.fail_at.items f.stop_after number
        ≡ said_fails (held_in (slot_at arms.now name.now)) number) }
{
    match held_of(arms, name) {
        Some(failing) => Ok(Failing {
            fail_at: Vec::from_slice(alloc, failing.fail_at.as_slice())?,
            stop_after: failing.stop_after,
        }),
        None => Ok(Failing {
            fail_at: Vec::new(alloc),
            stop_after: None,
        }),
    }
}

/// Forgets what was said of a name.
pub(crate) fn forget_arm(arms: &mut Vec<Slot<Failing>>, name: &DiskName)
    ensures forgotten { held_in (slot_at arms.new.items name.now) ≡ None }
    ensures elsewhere { (n : DiskNameValue) → n ≢ name.now
        → held_in (slot_at arms.new.items n) ≡ held_in (slot_at arms.old.items n) }
{
    let _failing = take_held(arms.as_mut_slice(), name);
}

/// Says this of a name, in place of what was said before.
pub(crate) fn put_arm(
    alloc: Global,
    arms: &mut Vec<Slot<Failing>>,
    name: &DiskName,
    failing: Failing,
) -> Result<(), NoMemory>
    ensures said { OnOk result (held_in (slot_at arms.new.items name.now) ≡ Some failing) }
    ensures refused { OnErr result (held_in (slot_at arms.new.items name.now)
        ≡ held_in (slot_at arms.old.items name.now)) }
    ensures elsewhere { (n : DiskNameValue) → n ≢ name.now
        → held_in (slot_at arms.new.items n) ≡ held_in (slot_at arms.old.items n) }
{
    if has_slot(arms.as_slice(), name) {
        put_held(arms.as_mut_slice(), name, failing);
        return Ok(());
    }
    let name = name.copy(alloc)?;
    arms.push(Slot {
        name,
        held: Some(failing),
        shelves: 0,
    })?;
    Ok(())
}
