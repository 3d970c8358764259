// Laws of the definitions.
ghost use Rattle.std.specs.Prelude.{◌≡◌, List, Option};
ghost use Rattle.samza_model.specs.declared.checkpoints.Checkpoint.{Checkpoint};
ghost use Rattle.samza_model.specs.declared.setups.Setup.{Setup};
ghost use Rattle.samza_model.specs.Content.{Content};
ghost use Rattle.samza_model.specs.Files.{Image};
ghost use Rattle.samza_model.specs.Restored.{Restores};

/// A task's files restore to one checkpoint and to one content of each store.
pub fn restores_to_one()
    ensures { (s : Setup) (image : Image) (mark mark' : Option Checkpoint)
        (stores stores' : List Content) → Restores s image mark stores
        → Restores s image mark' stores' → (mark ≡ mark') × (stores ≡ stores') }
{}
