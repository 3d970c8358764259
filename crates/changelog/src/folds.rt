// What is made of a changelog's records as they are read.
ghost use Rattle.std.specs.Prelude.{◌≡◌, ◌++◌, ◌∷◌, [], ℕ, List, IfOk, OnOk};
ghost use Rattle.samza_model.specs.declared.messages.Record.{Record as RecordValue};
ghost use Rattle.std.specs.FinMap as fin;
ghost use Rattle.kv_store.specs.Tracked.{set_of};

use kv_store::Table;
use samza_model::{Bin, NoMemory, Record};
use std::alloc::Global;
use std::collections::BTreeSet;

/// The map of the counted records, which come first, the number of those still to come, and the keys of the others.
#[derive(Drop)]
pub(crate) struct Fold {
    table: Table,
    left: u64,
    touched: BTreeSet<Bin>,
}

impl Fold {
    ghost use Rattle.changelog.specs.Folds.{IsFold};
    ghost use Rattle.changelog.specs.Reading.{HasRead};

    /// No record was read, of which so many are counted.
    pub(crate) fn new(alloc: Global, count: u64) -> Fold
        ensures { HasRead count [] result }
    {
        Fold {
            table: Table::new(alloc),
            left: count,
            touched: BTreeSet::new(alloc),
        }
    }

    /// Reads the records, one after another. They are moved, not copied.
    pub(crate) fn read_all(&mut self, records: Vec<Record>) -> Result<(), NoMemory>
        ensures { OnOk result ((count : ℕ) (before : List RecordValue)
            → HasRead count before self.old → HasRead count (before ++ records.items) self.new) }
    {
        for next in records {
            match self.read(next) {
                Ok(()) => {}
                Err(fault) => return Err(fault),
            }
        }
        Ok(())
    }

    /// Reads one record more.
    fn read(&mut self, next: Record) -> Result<(), NoMemory>
        ensures { OnOk result ((count : ℕ) (before : List RecordValue)
            → HasRead count before self.old → HasRead count (before ++ next ∷ []) self.new) }
    {
        let Record { key, value } = next;
        if self.left == 0 {
            self.touched.insert(key)?;
            return Ok(());
        }
        self.left -= 1;
        self.table.update(key, value)
    }

    /// The map, and the keys in the order of their bytes.
    pub(crate) fn into_parts(self, alloc: Global) -> Result<(Table, Vec<Bin>), NoMemory>
        ensures { IfOk result (λ r. (count : ℕ) (records : List RecordValue)
            → HasRead count records self → IsFold count records r.0 r.1.items) }
    {
        let Fold { table, touched, .. } = self;
        let keys = in_order(alloc, touched)?;
        Ok((table, keys))
    }
}

/// The keys in the order of their bytes.
fn in_order(alloc: Global, keys: BTreeSet<Bin>) -> Result<Vec<Bin>, NoMemory>
    ensures { IfOk result (λ sorted. sorted.items ≡ fin.keys (set_of keys.keys)) }
{
    Ok(keys.into_iter().collect(alloc)?)
}
