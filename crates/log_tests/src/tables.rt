// Each call once, on small tables.
ghost use Rattle.std.specs.Prelude.{◌≡◌, IfOk};
ghost use Rattle.kv_store.specs.Tracked.{IsDirty, undone};

use kv_store::{Table, TrackedTable, Undo};
use samza_model::{Bin, NoMemory};
use std::alloc::Global;
use std::test::Fail;
use test_kit::{are_records, bin, is_text};

/// A table of (a, 2) and (b, 3), and of what was put and taken away again.
fn two_pairs(alloc: Global) -> Result<Table, NoMemory> {
    let mut table = Table::new(alloc);
    for (key, value) in [("b", "1"), ("a", "2"), ("b", "3"), ("d", "4")] {
        let key = bin(alloc, key)?;
        let value = bin(alloc, value)?;
        table.put(key, value)?;
    }
    let key = bin(alloc, "d")?;
    table.delete(&key);
    Ok(table)
}

#[test]
fn a_table_answers_as_a_sorted_map(rt: HostRuntime) -> Result<(), Fail> {
    let table = two_pairs(rt.alloc())?;
    assert!(rt; table.len() == 2 && !table.is_empty());
    for (name, value, next) in [
        ("a", Some("2"), Some("a")),
        ("b", Some("3"), Some("b")),
        ("c", None, None),
        ("0", None, Some("a")),
    ] {
        let key = bin(rt.alloc(), name)?;
        let found = table.next(&key).map(|pair| pair.0);
        assert!(rt;
            is_text(table.get(&key), value) && is_text(found, next),
            "at {name}"
        );
    }
    Ok(())
}

/// A table where (a, 1) is logged.
fn one_logged(alloc: Global) -> Result<TrackedTable, NoMemory> {
    let mut table = TrackedTable::new(alloc);
    put(alloc, &mut table, b"a", b"1")?;
    table.flushed();
    Ok(table)
}

/// Sets a key's value.
fn put(
    alloc: Global,
    table: &mut TrackedTable,
    key: &[u8; 1],
    value: &[u8; 1],
) -> Result<Undo, NoMemory>
    ensures can_undo { IfOk result (λ undo. IsDirty table.new undo.key) }
    ensures undoes { IfOk result (λ undo. undone table.new undo ≡ table.old) }
{
    let key = Bin::of(alloc, key)?;
    let value = Bin::of(alloc, value)?;
    table.change(alloc, key, Some(value))
}

/// Takes a key away.
fn remove(alloc: Global, table: &mut TrackedTable, key: &[u8; 1]) -> Result<Undo, NoMemory>
    ensures can_undo { IfOk result (λ undo. IsDirty table.new undo.key) }
    ensures undoes { IfOk result (λ undo. undone table.new undo ≡ table.old) }
{
    let key = Bin::of(alloc, key)?;
    table.change(alloc, key, None)
}

/// Takes (a, 1) away, and sets (b, 2).
fn change_both(alloc: Global, table: &mut TrackedTable) -> Result<(), NoMemory> {
    remove(alloc, table, b"a")?;
    put(alloc, table, b"b", b"2")?;
    Ok(())
}

#[test]
fn changes_are_logged_once(rt: HostRuntime) -> Result<(), Fail> {
    let mut table = one_logged(rt.alloc())?;
    change_both(rt.alloc(), &mut table)?;
    assert!(rt; table.len() == 1 && table.dirty() == 2);
    let unlogged = table.unlogged(rt.alloc())?;
    assert!(rt; are_records(unlogged.as_slice(), &[("a", None), ("b", Some("2"))]));
    Ok(())
}

/// Takes a away, whether it is gone then, and sets (b, 2); and takes both back.
fn change_and_take_back(
    alloc: Global,
    table: &mut TrackedTable,
    a: &Bin,
) -> Result<bool, NoMemory> {
    let taken = remove(alloc, table, b"a")?;
    let is_gone = table.next(a).is_none();
    let put = put(alloc, table, b"b", b"2")?;
    table.take_back(put);
    table.take_back(taken);
    Ok(is_gone)
}

#[test]
fn changes_are_taken_back(rt: HostRuntime) -> Result<(), Fail> {
    let key = bin(rt.alloc(), "a")?;
    let mut table = one_logged(rt.alloc())?;
    assert!(rt; change_and_take_back(rt.alloc(), &mut table, &key)?);
    assert!(rt; table.len() == 1 && table.dirty() == 0);
    assert!(rt; is_text(table.get(&key), Some("1")));
    Ok(())
}

#[test]
fn a_table_is_taken_up_with_no_dirty_key(rt: HostRuntime) {
    let alloc = rt.alloc();
    let table = TrackedTable::with(alloc, Table::new(alloc));
    assert!(rt; table.is_empty() && table.dirty() == 0);
}
