// Laws of the definitions.
ghost use Rattle.std.specs.Prelude.{◌≡◌, ◌≢◌, ℕ, List};
ghost use Rattle.samza_model.specs.declared.setups.Setup.{Setup};
ghost use Rattle.samza_model.specs.Files.{Image};
ghost use Rattle.restore_trim.specs.declared.faults.OpenFault.{OpenFault as OpenFaultValue};
ghost use Rattle.unit_opening.specs.Opens.{Opens};
ghost use Rattle.unit_opening.specs.Refused.{WhyNotOpened};

use crate::OpenFault;
use disk_model::{Disk, Shelf};

/// Where a task can be opened there is no cause not to open it: beside `Device` and `NoMemory` no fault has one.
pub fn opens_or_says_why()
    ensures { (s : Setup) (image : Image) (bytes : List ℕ) (e : OpenFaultValue)
        → Opens s image bytes → e ≢ OpenFault.Device → e ≢ OpenFault.NoMemory
        → WhyNotOpened (Unit {0}) (Unit {0}) s image bytes e → ⊥ }
{}

/// The same with the words that `open_task` says of a disk and a shelf that tell their bytes.
pub fn open_task_opens_or_says_why<D: Disk, S: Shelf>()
    ensures { D.tells → S.tells → (s : Setup) (image : Image) (bytes : List ℕ) (e : OpenFaultValue)
        → Opens s image bytes → e ≢ OpenFault.Device → e ≢ OpenFault.NoMemory
        → WhyNotOpened D.tells S.tells s image bytes e → ⊥ }
{}

/// A task isn't opened for one cause: beside `Device` and `NoMemory` two faults that have one are the same.
pub fn opens_with_one_cause()
    ensures { (s : Setup) (image : Image) (bytes : List ℕ) (e e' : OpenFaultValue)
        → e ≢ OpenFault.Device → e ≢ OpenFault.NoMemory → e' ≢ OpenFault.Device
        → e' ≢ OpenFault.NoMemory → WhyNotOpened (Unit {0}) (Unit {0}) s image bytes e
        → WhyNotOpened (Unit {0}) (Unit {0}) s image bytes e' → e ≡ e' }
{}

/// The same with the words that `open_task` says of a disk and a shelf that tell their bytes.
pub fn open_task_opens_with_one_cause<D: Disk, S: Shelf>()
    ensures { D.tells → S.tells
        → (s : Setup) (image : Image) (bytes : List ℕ) (e e' : OpenFaultValue)
        → e ≢ OpenFault.Device → e ≢ OpenFault.NoMemory → e' ≢ OpenFault.Device
        → e' ≢ OpenFault.NoMemory → WhyNotOpened D.tells S.tells s image bytes e
        → WhyNotOpened D.tells S.tells s image bytes e' → e ≡ e' }
{}
