// Small byte strings, lists and records, of which the examples are made.
ghost use Rattle.std.specs.Prelude.{◌≡◌, IfOk, length};
ghost use Rattle.std.specs.List.{AllByRecursion};
ghost use Rattle.samza_model.specs.Limits.{IsWithinLimits};

use samza_model::{Bin, Items, NoMemory, Record};
use std::alloc::Global;

/// The bytes of a text.
pub fn bin(alloc: Global, text: &str) -> Result<Bin, NoMemory> {
    Bin::of(alloc, text.as_bytes())
}

/// The list of this item alone.
pub fn list<T: Drop>(alloc: Global, item: T) -> Result<Items<T>, NoMemory>
    ensures { IfOk result (λ list. length list ≡ 1) }
{
    let mut items = Vec::new(alloc);
    items.push(item)?;
    Ok(Items::from_vec(items))
}

/// The record that sets a key's value.
pub fn set(alloc: Global, key: &[u8; 1], value: &[u8; 1]) -> Result<Record, NoMemory>
    ensures { IfOk result IsWithinLimits }
{
    Ok(Record {
        key: Bin::of(alloc, key)?,
        value: Some(Bin::of(alloc, value)?),
    })
}

/// The record that takes a key away.
pub fn removal(alloc: Global, key: &[u8; 1]) -> Result<Record, NoMemory>
    ensures { IfOk result IsWithinLimits }
{
    Ok(Record {
        key: Bin::of(alloc, key)?,
        value: None,
    })
}

/// A key, and its value or none.
pub type Row = (&'static [u8; 1], Option<&'static [u8; 1]>);

/// The record of a key and its value, or of none, which takes the key away.
pub fn record(alloc: Global, row: Row) -> Result<Record, NoMemory>
    ensures { IfOk result IsWithinLimits }
{
    match row {
        (key, Some(value)) => set(alloc, key, value),
        (key, None) => removal(alloc, key),
    }
}

/// The records of these keys and values.
pub fn records(alloc: Global, rows: &[Row]) -> Result<Vec<Record>, NoMemory>
    ensures { IfOk result (λ r. AllByRecursion IsWithinLimits r.items) }
{
    let mut records = Vec::new(alloc);
    for row in rows {
        records.push(record(alloc, *row)?)?;
    }
    Ok(records)
}
