// What takes the tail of a changelog back.
ghost use Rattle.std.specs.Prelude.{◌≡◌, ◌≤◌, ℕ, List, length, take, drop, IfOk};
ghost use Rattle.std.specs.List.{AllByRecursion};
ghost use Rattle.samza_model.specs.declared.messages.Record.{Record as RecordValue};
ghost use Rattle.samza_model.specs.Content.{foldrec, replayed};
ghost use Rattle.samza_model.specs.Limits.{IsWithinLimits};
ghost use Rattle.kv_store.specs.Tracked.{AreWithinLimits, records_of};
ghost use Rattle.changelog.specs.Folds.{keys_of};

use kv_store::Table;
use samza_model::{Bin, NoMemory, Record};
use std::alloc::Global;

/// Each of the keys with its value in the table, or without one where the table doesn't have it. Of the table and the keys
/// that `fold` gave, these records, written behind the log, make its content that of the table again. The one error is want
/// of memory.
pub fn revert(alloc: Global, table: &Table, touched: &[Bin]) -> Result<Vec<Record>, NoMemory>
    ensures exact { IfOk result (λ records. records.items ≡ records_of table.now touched.now) }
    ensures reverts { IfOk result (λ records. (count : ℕ) (logged : List RecordValue)
        → table.now ≡ foldrec (take count logged) → touched.now ≡ keys_of (drop count logged)
        → replayed (foldrec logged) records.items ≡ table.now) }
    ensures limits { AreWithinLimits table.now
        → AllByRecursion (λ key. length key ≤ 1024) touched.now
        → IfOk result (λ records. AllByRecursion IsWithinLimits records.items) }
{
    let mut records = Vec::with_capacity(alloc, touched.len())?;
    for key in touched {
        records.push(table.record_of(alloc, key)?)?;
    }
    Ok(records)
}
