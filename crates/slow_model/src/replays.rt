// The map that a changelog's records leave.
ghost use Rattle.std.specs.Prelude.{◌≡◌, IfOk};
ghost use Rattle.samza_model.specs.Content.{foldrec};

use kv_store::Table;
use samza_model::{NoMemory, Plain, Record};
use std::alloc::Global;

/// The map that the records leave, one after another: one with a value sets its key, one without takes it away.
pub fn replay(alloc: Global, records: &[Record]) -> Result<Table, NoMemory>
    ensures { IfOk result (λ table. table ≡ foldrec records.now) }
{
    let mut table = Table::new(alloc);
    for r in records {
        let key = r.key.copy(alloc)?;
        let value = r.value.copy(alloc)?;
        table.update(key, value)?;
    }
    Ok(table)
}
