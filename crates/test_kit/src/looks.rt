// Whether byte strings, records and tables are those that are wanted.
use crate::rows::bin;
use kv_store::Table;
use samza_model::{Bin, NoMemory, Record};
use std::alloc::Global;

/// Whether the bytes are this text; no bytes are no text.
pub fn is_text(found: Option<&Bin>, text: Option<&str>) -> bool {
    match (found, text) {
        (Some(bin), Some(text)) => bin.bytes() == text.as_bytes(),
        (None, None) => true,
        _ => false,
    }
}

/// Whether these are the records, in order.
pub fn are_records(records: &[Record], want: &[(&str, Option<&str>)]) -> bool {
    for (record, (key, value)) in records.iter().zip(want) {
        if !is_text(Some(&record.key), Some(*key)) || !is_text(record.value.as_ref(), *value) {
            return false;
        }
    }
    records.len() == want.len()
}

/// Whether the table has just these pairs.
pub fn has_pairs(alloc: Global, table: &Table, pairs: &[(&str, &str)]) -> Result<bool, NoMemory> {
    for (key, value) in pairs {
        if !is_text(table.get(&bin(alloc, key)?), Some(*value)) {
            return Ok(false);
        }
    }
    Ok(table.len() == pairs.len() as u64)
}
