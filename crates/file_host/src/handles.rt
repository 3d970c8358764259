// What a folder has handed out and not got back. It holds nothing of a name but that it is known.
ghost use Rattle.std.specs.Prelude.{◌≡◌, IsSome, OnOk, OnErr};
ghost use Rattle.disk_model.specs.Handles.{AsMany, OneMore};
ghost use Rattle.disk_model.specs.HandedOut.{disks_of, held_under, shelves_of};

use disk_model::{DiskName, HandedOut};
use samza_model::NoMemory;
use std::alloc::Global;

/// Makes a name known.
fn know(handed: &mut HandedOut<()>, alloc: Global, name: &DiskName) -> Result<(), NoMemory>
    ensures there { OnOk result (disks_of handed.old name.now ≡ 0
        → IsSome (held_under handed.new name.now)) }
    ensures disks { AsMany (disks_of handed.old) (disks_of handed.new) }
    ensures shelves { AsMany (shelves_of handed.old) (shelves_of handed.new) }
{
    if handed.is_known(name) {
        return Ok(());
    }
    handed.add(alloc, name, ())
}

/// Counts a disk that goes out.
pub(crate) fn lend_disk(
    handed: &mut HandedOut<()>,
    alloc: Global,
    name: &DiskName,
) -> Result<(), NoMemory>
    ensures lent { OnOk result (OneMore name.now (disks_of handed.old) (disks_of handed.new)) }
    ensures refused { OnErr result (AsMany (disks_of handed.old) (disks_of handed.new)) }
    ensures shelves { AsMany (shelves_of handed.old) (shelves_of handed.new) }
{
    know(handed, alloc, name)?;
    handed.lend_disk(name).ok_or(NoMemory)
}

/// Counts a shelf that goes out.
pub(crate) fn lend_shelf(
    handed: &mut HandedOut<()>,
    alloc: Global,
    name: &DiskName,
) -> Result<(), NoMemory>
    ensures lent { OnOk result (OneMore name.now (shelves_of handed.old) (shelves_of handed.new)) }
    ensures refused { OnErr result (AsMany (shelves_of handed.old) (shelves_of handed.new)) }
    ensures disks { AsMany (disks_of handed.old) (disks_of handed.new) }
{
    know(handed, alloc, name)?;
    if handed.lend_shelf(name) {
        Ok(())
    } else {
        Err(NoMemory)
    }
}
