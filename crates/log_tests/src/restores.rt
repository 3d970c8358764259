// A task with one store and one output, restored from a disk in memory. What is wanted was found by hand.
ghost use Rattle.std.specs.Prelude.{IfOk};
ghost use Rattle.std.specs.List.{AllByRecursion};
ghost use Rattle.samza_model.specs.Limits.{IsWithinLimits};

use changelog::frames_of;
use checkpoint_log::{encode_checkpoint, is_well_formed};
use disk_model::{Disk, DiskName, MemDisk};
use restore_trim::{OpenFault, Restored, restore};
use samza_model::{Bin, Checkpoint, Items, NoMemory, Record, Ssp, StoreMark, topic_name};
use std::alloc::Global;
use std::slice;
use std::test::Fail;
use test_kit::{has_pairs, list, records, setup};
use topic_log::{Log, LogFault};

/// Appends the records to a file's log as one frame.
fn append<D: Disk>(
    alloc: Global,
    disk: &mut D,
    file: u32,
    records: &[Record],
) -> Result<(), LogFault>
    requires { AllByRecursion IsWithinLimits records.now }
{
    let mut log = Log::open_log(alloc, disk, file)?;
    let frames = frames_of(alloc, records, 500)?;
    log.append_all(disk, frames.as_slice())?;
    Ok(())
}

/// The record of the first checkpoint, which counts two changes.
fn mark(alloc: Global) -> Result<Record, LogFault>
    ensures { IfOk result IsWithinLimits }
{
    let store = StoreMark {
        name: Bin::of(alloc, b"counts")?,
        count: 2,
    };
    let checkpoint = Checkpoint {
        id: 1,
        inputs: Items::from_vec(Vec::new(alloc)),
        stores: list(alloc, store)?,
        outputs: list(alloc, Bin::of(alloc, b"kafka.totals")?)?,
    };
    if !is_well_formed(&checkpoint) {
        return Err(LogFault::Broken);
    }
    Ok(encode_checkpoint(alloc, &checkpoint)?)
}

fn commit<D: Disk>(alloc: Global, disk: &mut D) -> Result<(), LogFault> {
    let mark = mark(alloc)?;
    append(alloc, disk, 0, slice::from_ref(&mark))
}

/// The changes (a, 1) and (b, 1).
fn change<D: Disk>(alloc: Global, disk: &mut D) -> Result<(), LogFault> {
    let changes = records(alloc, &[(b"a", Some(b"1")), (b"b", Some(b"1"))])?;
    append(alloc, disk, 1, changes.as_slice())
}

/// The changes (a, 2), and without b.
fn change_again<D: Disk>(alloc: Global, disk: &mut D) -> Result<(), LogFault> {
    let changes = records(alloc, &[(b"a", Some(b"2")), (b"b", None)])?;
    append(alloc, disk, 1, changes.as_slice())
}

fn disk(alloc: Global) -> Result<MemDisk, NoMemory> {
    MemDisk::new(
        alloc,
        DiskName::Task(0),
        17,
        400,
        200,
        Vec::new(alloc),
        None,
    )
}

/// A disk with two changes that a checkpoint counts, and two behind it.
fn disk_with_tail(alloc: Global) -> Result<MemDisk, Fail> {
    let mut disk = disk(alloc)?;
    change(alloc, &mut disk)?;
    commit(alloc, &mut disk)?;
    change_again(alloc, &mut disk)?;
    Ok(disk)
}

/// The store at the checkpoint.
const BOTH: &[(&str, &str)] = &[("a", "1"), ("b", "1")];

/// How many records the one changelog has; None where there is no checkpoint, or the store is another than that of the
/// checkpoint.
fn length_of(alloc: Global, restored: &Restored) -> Result<Option<u64>, NoMemory> {
    match (restored.tables.as_slice(), restored.changelogs.as_slice()) {
        ([table], [log]) if restored.checkpoint.is_some() && has_pairs(alloc, table, BOTH)? => {
            Ok(Some(log.len()))
        }
        _ => Ok(None),
    }
}

/// How many records the changelog has once the task is restored. None where it has no checkpoint, or another store than
/// that of the checkpoint.
fn restored_with(alloc: Global, disk: &mut MemDisk) -> Result<Option<u64>, Fail> {
    let setup = setup(alloc)?;
    let restored = restore(alloc, disk, &setup)?;
    Ok(length_of(alloc, &restored)?)
}

#[test]
fn changes_that_no_checkpoint_counts_are_taken_back(rt: HostRuntime) -> Result<(), Fail> {
    let mut disk = disk_with_tail(rt.alloc())?;
    // As long as nothing is committed the tail is taken back again, with what took it back.
    for held in [6, 8] {
        assert_eq!(rt; restored_with(rt.alloc(), &mut disk)?, Some(held));
    }
    Ok(())
}

/// Why a task whose checkpoint counts two records of an empty changelog isn't restored.
fn fault_without_changes(alloc: Global) -> Result<Option<OpenFault>, Fail> {
    let mut disk = disk(alloc)?;
    commit(alloc, &mut disk)?;
    let setup = setup(alloc)?;
    Ok(restore(alloc, &mut disk, &setup).err())
}

#[test]
fn a_changelog_with_fewer_records_is_refused(rt: HostRuntime) -> Result<(), Fail> {
    let want = OpenFault::Ahead {
        input: None,
        store: Some(0),
        wanted: 2,
        held: 0,
    };
    assert_eq!(rt; fault_without_changes(rt.alloc())?, Some(want));
    Ok(())
}

#[test]
fn a_stream_is_named_behind_its_system(rt: HostRuntime) -> Result<(), Fail> {
    let alloc = rt.alloc();
    let ssp = Ssp {
        system: Bin::of(alloc, b"kafka")?,
        stream: Bin::of(alloc, b"lines")?,
        partition: 3,
    };
    assert_eq!(rt; topic_name(alloc, &ssp)?.bytes(), b"kafka.lines".as_slice());
    Ok(())
}
