// A log of two frames, folded at each count, and its tail taken back. What is wanted was found by hand.
ghost use Rattle.std.specs.Prelude.{◌≡◌, ◌≤◌, length, IfOk};
ghost use Rattle.std.specs.List.{AllByRecursion};
ghost use Rattle.samza_model.specs.Limits.{IsWithinLimits};
ghost use Rattle.kv_store.specs.Tracked.{AreWithinLimits};

use changelog::{Changelog, frames_of, revert};
use disk_model::{Disk, DiskName, MemDisk};
use kv_store::Table;
use samza_model::{Bin, NoMemory, Record};
use std::alloc::Global;
use std::test::Fail;
use test_kit::{Row, are_records, has_pairs, is_text, records};
use topic_log::LogFault;

/// Writes the records in frames of three, and answers how many device calls that took.
fn add<D: Disk>(alloc: Global, disk: &mut D, records: &[Record]) -> Result<u64, LogFault>
    requires { AllByRecursion IsWithinLimits records.now }
{
    let mut log = Changelog::open_changelog(alloc, disk, 1)?;
    let frames = frames_of(alloc, records, 3)?;
    let before = disk.calls();
    log.write(disk, frames.as_slice())?;
    Ok(disk.calls().saturating_sub(before))
}

/// The records of the two frames.
const FIVE: &[Row] = &[
    (b"a", Some(b"1")),
    (b"b", Some(b"1")),
    (b"a", None),
    (b"b", Some(b"3")),
    (b"c", Some(b"2")),
];

/// Writes the two frames.
fn add_five<D: Disk>(alloc: Global, disk: &mut D) -> Result<u64, LogFault> {
    let five = records(alloc, FIVE)?;
    add(alloc, disk, five.as_slice())
}

/// The map at a count, and the keys behind it.
fn folded<D: Disk>(alloc: Global, disk: &mut D, count: u64) -> Result<(Table, Vec<Bin>), LogFault>
    ensures limits { IfOk result (λ r. AreWithinLimits r.0) }
    ensures short { IfOk result (λ r. AllByRecursion (λ key. length key ≤ 1024) r.1.items) }
{
    let mut log = Changelog::open_changelog(alloc, disk, 1)?;
    if log.len() < count {
        return Err(LogFault::Limit);
    }
    log.fold(alloc, disk, count)
}

/// Takes what stands behind a count back, and answers the records that were written for that.
fn take_back<D: Disk>(alloc: Global, disk: &mut D, count: u64) -> Result<Vec<Record>, LogFault> {
    let (table, touched) = folded(alloc, disk, count)?;
    let records = revert(alloc, &table, touched.as_slice())?;
    add(alloc, disk, records.as_slice())?;
    Ok(records)
}

/// How many records and bytes the log has.
fn lengths<D: Disk>(alloc: Global, disk: &mut D) -> Result<(u64, u64), LogFault> {
    let log = Changelog::open_changelog(alloc, disk, 1)?;
    let size = log.size();
    let count = if log.is_empty() {
        0
    } else {
        log.into_log().len()
    };
    Ok((count, size))
}

fn are_keys(keys: &[Bin], want: &[&str]) -> bool {
    keys.len() == want.len()
        && keys
            .iter()
            .zip(want)
            .all(|(key, want)| is_text(Some(key), Some(*want)))
}

/// Whether the log folds at the count to this map, with these keys behind it.
fn folds_to<D: Disk>(
    alloc: Global,
    disk: &mut D,
    count: u64,
    map: &[(&str, &str)],
    keys: &[&str],
) -> Result<bool, LogFault> {
    let (table, touched) = folded(alloc, disk, count)?;
    Ok(has_pairs(alloc, &table, map)? && are_keys(touched.as_slice(), keys))
}

fn disk(alloc: Global) -> Result<MemDisk, NoMemory> {
    MemDisk::new(alloc, DiskName::Task(0), 2, 400, 100, Vec::new(alloc), None)
}

/// A disk whose file 1 has the log of five records, and how many device calls it took to append them.
fn disk_of_five(alloc: Global) -> Result<(MemDisk, u64), Fail> {
    let mut disk = disk(alloc)?;
    let calls = add_five(alloc, &mut disk)?;
    Ok((disk, calls))
}

/// A count of records of that log, the map that they make, and the keys behind them.
type Folded = (
    u64,
    &'static [(&'static str, &'static str)],
    &'static [&'static str],
);

const FOLDED: &[Folded] = &[
    (0, &[], &["a", "b", "c"]),
    (1, &[("a", "1")], &["a", "b", "c"]),
    (2, &[("a", "1"), ("b", "1")], &["a", "b", "c"]),
    (3, &[("b", "1")], &["b", "c"]),
    (4, &[("b", "3")], &["c"]),
    (5, &[("b", "3"), ("c", "2")], &[]),
];

/// Fails with the first of these counts at which the log folds to something else.
fn all_fold<D: Disk>(alloc: Global, disk: &mut D, rows: &[Folded]) -> Result<(), Fail> {
    for (count, map, keys) in rows {
        if !folds_to(alloc, disk, *count, map, keys)? {
            return Err(Fail::new(format_args!("at {count}")));
        }
    }
    Ok(())
}

#[test]
fn a_log_of_two_frames_folds_at_each_count(rt: HostRuntime) -> Result<(), Fail> {
    let (mut disk, _) = disk_of_five(rt.alloc())?;
    assert_eq!(rt; lengths(rt.alloc(), &mut disk)?, (5, 68));
    all_fold(rt.alloc(), &mut disk, FOLDED)
}

#[test]
fn a_new_log_has_a_gate_alone(rt: HostRuntime) -> Result<(), Fail> {
    let mut disk = disk(rt.alloc())?;
    assert_eq!(rt; lengths(rt.alloc(), &mut disk)?, (0, 1));
    Ok(())
}

#[test]
fn a_tail_that_is_taken_back_leaves_the_map_before_it(rt: HostRuntime) -> Result<(), Fail> {
    let (mut disk, _) = disk_of_five(rt.alloc())?;
    let records = take_back(rt.alloc(), &mut disk, 2)?;
    let want = [("a", Some("1")), ("b", Some("1")), ("c", None)];
    assert!(rt; are_records(records.as_slice(), &want));
    assert!(rt; folds_to(rt.alloc(), &mut disk, 8, &[("a", "1"), ("b", "1")], &[])?);
    Ok(())
}

#[test]
fn two_frames_are_written_under_one_pair_of_syncs(rt: HostRuntime) -> Result<(), Fail> {
    let (_, calls) = disk_of_five(rt.alloc())?;
    // Two writes of frames, the gate between them, a sync, the gate before them, and a sync.
    assert_eq!(rt; calls, 6);
    Ok(())
}

/// How many device calls the folding of a log of these records makes, in frames of three.
fn folding_calls(alloc: Global, rows: &[Row]) -> Result<u64, Fail> {
    let mut disk = disk(alloc)?;
    let records = records(alloc, rows)?;
    add(alloc, &mut disk, records.as_slice())?;
    let mut log = Changelog::open_changelog(alloc, &mut disk, 1)?;
    let before = disk.calls();
    log.fold(alloc, &mut disk, 0)?;
    Ok(disk.calls().saturating_sub(before))
}

#[test]
fn small_frames_are_folded_by_one_read(rt: HostRuntime) -> Result<(), Fail> {
    assert_eq!(rt; folding_calls(rt.alloc(), &[])?, 0);
    assert_eq!(rt; folding_calls(rt.alloc(), FIVE)?, 1);
    Ok(())
}
