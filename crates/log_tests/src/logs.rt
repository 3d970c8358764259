// Logs over a disk in memory: what they leave of a file's bytes, what they read, and where they refuse. What is wanted
// was spelled by hand.
ghost use Rattle.std.specs.Prelude.{◌≡◌, true, false, List, IfOk, IfSome, OnOk};
ghost use Rattle.std.specs.List.{AllByRecursion};
ghost use Rattle.samza_model.specs.declared.messages.Record.{Record as RecordValue};
ghost use Rattle.samza_model.specs.Limits.{IsFrameable, IsWithinLimits};
ghost use Rattle.topic_log.specs.Batches.{HasPlace};
ghost use Rattle.topic_log.specs.Opened.{is_broken, IsOpen};

use checkpoint_log::last;
use disk_model::{Disk, DiskName, Host, MemDisk, MemHost};
use log_frame::{Frame, frames_of};
use samza_model::{Bin, Items, NoMemory, Plain, Record};
use slow_logs::spell_log;
use std::alloc::Global;
use std::test::Fail;
use test_kit::{Row, record, records, removal, set};
use topic_log::{Log, LogFault, Place, produce_one, read_shelf};

/// A disk of one empty file, whose calls behind the first so many fail.
fn empty_disk(alloc: Global, stop_after: Option<u64>) -> Result<MemDisk, NoMemory> {
    let name = DiskName::Task(0);
    MemDisk::new(alloc, name, 1, 400, 100, Vec::new(alloc), stop_after)
}

/// A disk whose file 0 has these bytes.
fn disk_of(alloc: Global, bytes: &[u8]) -> Result<MemDisk, Fail> {
    let mut disk = empty_disk(alloc, None)?;
    disk.write_at(0, 0, bytes)?;
    disk.sync(0)?;
    Ok(disk)
}

/// Whether opening a file of these bytes leaves just these, as a log without a record.
fn opens_empty(alloc: Global, bytes: &[u8], left: &[u8]) -> Result<bool, Fail> {
    let mut disk = disk_of(alloc, bytes)?;
    let log = Log::open_log(alloc, &mut disk, 0)?;
    let is_empty = log.is_empty() && (log.len(), log.size()) == (0, 1) && log.last().is_none();
    Ok(is_empty && disk.bytes(0) == left)
}

#[test]
fn an_opened_log_of_no_frame_leaves_one_closed_gate(rt: HostRuntime) -> Result<(), Fail> {
    for (bytes, left) in [
        ([].as_slice(), [0x43].as_slice()),
        ([0x4F].as_slice(), [0x43].as_slice()),
        ([0xAB, 0, 0, 1].as_slice(), [0xAB].as_slice()),
    ] {
        assert!(rt; opens_empty(rt.alloc(), bytes, left)?, "{bytes:?}");
    }
    Ok(())
}

/// The file of the one record (a, 1), with this number of records in its frame.
fn counted(count: u8) -> [u8; 20] {
    [
        0x4F, 0, 0, 0, 0x0A, 0, 0, 0, count, // gate, bytes of the records, records
        0, 0, 0, 1, 0x61, 0, 0, 0, 1, 0x31, // a, 1
        0x43, // gate
    ]
}

/// Why a file of these bytes is opened as no log.
fn opening_fault(alloc: Global, bytes: &[u8]) -> Result<Option<LogFault>, Fail> {
    let mut disk = disk_of(alloc, bytes)?;
    Ok(Log::open_log(alloc, &mut disk, 0).err())
}

/// Why a shelf of these bytes is read as no log.
fn reading_fault(alloc: Global, bytes: &[u8]) -> Result<Option<LogFault>, Fail> {
    let name = DiskName::Task(0);
    let mut host = MemHost::new(alloc, None, 64, 16)?;
    if !host.fits(&name, 0, bytes.len()) {
        return Err(Fail::new("it doesn't fit"));
    }
    host.put_file(&name, 0, bytes)?;
    let mut shelf = host.shelf(alloc, &name, 0)?;
    Ok(read_shelf(alloc, &mut shelf).err())
}

#[test]
fn a_file_that_is_no_log_is_damaged_where_reading_stops(rt: HostRuntime) -> Result<(), Fail> {
    let whole = counted(1);
    let two = counted(2);
    for (bytes, at) in [(two.as_slice(), 19), (&whole[..12], 1), (&whole[..19], 19)] {
        let fault = Some(LogFault::Damaged { at });
        assert_eq!(rt; opening_fault(rt.alloc(), bytes)?, fault);
        assert_eq!(rt; reading_fault(rt.alloc(), bytes)?, fault);
    }
    Ok(())
}

/// The offset of this record behind the log of these bytes, and the bytes that are left.
fn produced(
    alloc: Global,
    bytes: &[u8],
    row: Row,
) -> Result<(Result<u64, LogFault>, Vec<u8>), Fail> {
    let body = record(alloc, row)?;
    let mut disk = disk_of(alloc, bytes)?;
    let offset = produce_one(alloc, &mut disk, 0, &body);
    let left = Vec::from_slice(alloc, disk.bytes(0))?;
    Ok((offset, left))
}

/// The file of the one record (a, 1), and a frame of b without a value behind it.
const PRODUCED: [u8; 38] = [
    0x4F, 0, 0, 0, 0x0A, 0, 0, 0, 1, // gate, bytes of the records, records
    0, 0, 0, 1, 0x61, 0, 0, 0, 1, 0x31, // a, 1
    0x4F, 0, 0, 0, 0x09, 0, 0, 0, 1, // gate, bytes of the records, records
    0, 0, 0, 1, 0x62, 0xFF, 0xFF, 0xFF, 0xFF, // b, no value
    0x43, // gate
];

#[test]
fn a_record_is_produced_behind_those_of_the_file(rt: HostRuntime) -> Result<(), Fail> {
    let (offset, left) = produced(rt.alloc(), &[], (b"a", Some(b"1")))?;
    assert_eq!(rt; (offset, left.as_slice()), (Ok(0), counted(1).as_slice()));
    let (offset, left) = produced(rt.alloc(), &counted(1), (b"b", None))?;
    assert_eq!(rt; (offset, left.as_slice()), (Ok(1), PRODUCED.as_slice()));
    Ok(())
}

#[test]
fn no_record_is_produced_behind_a_file_that_is_no_log(rt: HostRuntime) -> Result<(), Fail> {
    let (offset, left) = produced(rt.alloc(), &counted(2), (b"b", None))?;
    assert_eq!(rt; offset, Err(LogFault::Damaged { at: 19 }));
    assert_eq!(rt; left.as_slice(), counted(2).as_slice());
    Ok(())
}

/// The number of the checkpoint with which the log of these bytes ends.
fn last_number(alloc: Global, bytes: &[u8]) -> Result<Result<Option<u64>, LogFault>, Fail> {
    let mut disk = disk_of(alloc, bytes)?;
    let mut log = Log::open_log(alloc, &mut disk, 0)?;
    Ok(match last(alloc, &mut log, &mut disk) {
        Ok(Some(c)) => Ok(Some(c.id)),
        Ok(None) => Ok(None),
        Err(fault) => Err(fault),
    })
}

#[test]
fn a_log_ends_with_its_last_checkpoint(rt: HostRuntime) -> Result<(), Fail> {
    let alloc = rt.alloc();
    let two = [
        0x4F, 0, 0, 0, 0x15, 0, 0, 0, 1, // gate, bytes of the records, records
        0, 0, 0, 8, 0, 0, 0, 0, 0, 0, 0, 1, 0, 0, 0, 5, 1, 0, 0, 0, 0, // number 1, of no names
        0x4F, 0, 0, 0, 0x15, 0, 0, 0, 1, // gate, bytes of the records, records
        0, 0, 0, 8, 0, 0, 0, 0, 0, 0, 0, 2, 0, 0, 0, 5, 1, 0, 0, 0, 0, // number 2, of no names
        0x43, // gate
    ];
    let paired = [
        0x4F, 0, 0, 0, 0x2A, 0, 0, 0, 2, // gate, bytes of the records, records
        0, 0, 0, 8, 0, 0, 0, 0, 0, 0, 0, 1, 0, 0, 0, 5, 1, 0, 0, 0, 0, // number 1, of no names
        0, 0, 0, 8, 0, 0, 0, 0, 0, 0, 0, 2, 0, 0, 0, 5, 1, 0, 0, 0, 0, // number 2, of no names
        0x43, // gate
    ];
    assert_eq!(rt; last_number(alloc, &[])?, Ok(None));
    assert_eq!(rt; last_number(alloc, &two)?, Ok(Some(2)));
    assert_eq!(rt;
        last_number(alloc, &paired)?,
        Err(LogFault::Damaged { at: 1 })
    );
    Ok(())
}

/// A log of the two lists [(a, 1), (b, none)] and [(c, 2)].
const TWO: [u8; 48] = [
    0x4F, 0, 0, 0, 0x13, 0, 0, 0, 2, // gate, bytes of the records, records
    0, 0, 0, 1, 0x61, 0, 0, 0, 1, 0x31, // a, 1
    0, 0, 0, 1, 0x62, 0xFF, 0xFF, 0xFF, 0xFF, // b, no value
    0x4F, 0, 0, 0, 0x0A, 0, 0, 0, 1, // gate, bytes of the records, records
    0, 0, 0, 1, 0x63, 0, 0, 0, 1, 0x32, // c, 2
    0x43, // gate
];

fn two_lists(alloc: Global) -> Result<Vec<Items<Record>>, NoMemory>
    ensures { IfOk result (λ lists. AllByRecursion IsFrameable lists.items) }
{
    let mut first = Vec::new(alloc);
    first.push(set(alloc, b"a", b"1")?)?;
    first.push(removal(alloc, b"b")?)?;
    let mut second = Vec::new(alloc);
    second.push(set(alloc, b"c", b"2")?)?;
    let mut lists = Vec::new(alloc);
    lists.push(Items::from_vec(first))?;
    lists.push(Items::from_vec(second))?;
    Ok(lists)
}

fn two_frames(alloc: Global) -> Result<Vec<Frame>, NoMemory> {
    let three = [(b"a", Some(b"1")), (b"b", None), (b"c", Some(b"2"))];
    let records = records(alloc, &three)?;
    frames_of(alloc, records.as_slice(), 2)
}

/// The bytes of a log to which these frames were appended, how many records it was said to have behind that, and whether it was
/// said to have room for them.
fn appended(alloc: Global, frames: &[Frame]) -> Result<(Vec<u8>, [u64; 2], bool), Fail> {
    let mut disk = empty_disk(alloc, None)?;
    let mut log = Log::open_log(alloc, &mut disk, 0)?;
    let has_room = log.plan(frames).is_some();
    let told = log.append_all(&mut disk, frames)?;
    let left = Vec::from_slice(alloc, disk.bytes(0))?;
    Ok((left, [told, log.len()], has_room))
}

#[test]
fn appended_frames_stand_one_behind_the_other(rt: HostRuntime) -> Result<(), Fail> {
    let frames = two_frames(rt.alloc())?;
    let (bytes, counts, has_room) = appended(rt.alloc(), frames.as_slice())?;
    assert_eq!(rt; (bytes.as_slice(), counts), (TWO.as_slice(), [3; 2]));
    assert!(rt; has_room);
    Ok(())
}

#[test]
fn its_bytes_are_those_that_the_definition_spells(rt: HostRuntime) -> Result<(), Fail> {
    let lists = two_lists(rt.alloc())?;
    let spelled = spell_log(rt.alloc(), lists.as_slice())?;
    assert_eq!(rt; spelled.bytes(), TWO.as_slice());
    Ok(())
}

/// The batch at a place, and the place behind it.
fn batch_of<D: Disk>(
    alloc: Global,
    log: &mut Log,
    disk: &mut D,
    place: Place,
) -> Result<Option<(Items<Record>, Place)>, LogFault>
    requires place { D.tells → (frames before : List (List RecordValue))
        × HasPlace (D.reads disk.old) (D.images disk.old) log.old place frames before }
    requires sound { is_broken log.old ≡ false }
    ensures behind { IfOk result (λ o. IfSome o (λ b. D.tells
        → (frames before : List (List RecordValue))
        × HasPlace (D.reads disk.new) (D.images disk.new) log.new b.1 frames before)) }
    ensures sound { OnOk result (is_broken log.new ≡ false) }
{
    log.batch(alloc, disk, place)
}

/// The same, where a batch is there.
fn next_batch<D: Disk>(
    alloc: Global,
    log: &mut Log,
    disk: &mut D,
    place: Place,
) -> Result<(Items<Record>, Place), Fail>
    requires place { D.tells → (frames before : List (List RecordValue))
        × HasPlace (D.reads disk.old) (D.images disk.old) log.old place frames before }
    requires sound { is_broken log.old ≡ false }
    ensures behind { IfOk result (λ b. D.tells → (frames before : List (List RecordValue))
        × HasPlace (D.reads disk.new) (D.images disk.new) log.new b.1 frames before) }
    ensures sound { OnOk result (is_broken log.new ≡ false) }
{
    let batch = batch_of(alloc, log, disk, place)?;
    Ok(batch.ok_or("no batch")?)
}

/// The batches of the log of two lists, the places behind each, and whether no batch stands behind them.
fn two_batches(alloc: Global) -> Result<([Items<Record>; 2], [Place; 2], bool), Fail> {
    let mut disk = disk_of(alloc, &TWO)?;
    let mut log = Log::open_log(alloc, &mut disk, 0)?;
    let start = log.start();
    let (first, middle) = next_batch(alloc, &mut log, &mut disk, start)?;
    let (second, end) = next_batch(alloc, &mut log, &mut disk, middle)?;
    let is_end = batch_of(alloc, &mut log, &mut disk, end)?.is_none();
    Ok((
        [first, second],
        [middle, end],
        is_end && log.last() == Some(middle),
    ))
}

#[test]
fn batches_are_read_one_behind_the_other(rt: HostRuntime) -> Result<(), Fail> {
    let (batches, places, is_end) = two_batches(rt.alloc())?;
    let middle = Place { byte: 28, index: 2 };
    let end = Place { byte: 47, index: 3 };
    assert!(rt; places == [middle, end] && is_end);
    let lists = two_lists(rt.alloc())?;
    for (list, found) in lists.iter().zip(batches.iter()) {
        assert!(rt; list.same(found));
    }
    Ok(())
}

/// Whether an append, a read and the search for the last checkpoint answer `Broken`.
fn answers_broken<D: Disk>(alloc: Global, log: &mut Log, disk: &mut D, frames: &[Frame]) -> bool
    requires { is_broken log.old ≡ true }
{
    let start = log.start();
    let Err(LogFault::Broken) = log.append_all(disk, frames) else {
        return false;
    };
    let Err(LogFault::Broken) = log.batch(alloc, disk, start) else {
        return false;
    };
    matches!(last(alloc, log, disk), Err(LogFault::Broken))
}

/// Whether an append answers `Device`, and each call behind it `Broken`.
fn breaks<D: Disk>(alloc: Global, log: &mut Log, disk: &mut D, frames: &[Frame]) -> bool
    requires { D.tells → is_broken log.old ≡ false → (before : List (List RecordValue))
        × IsOpen (D.reads disk.old) (D.images disk.old) log.old before }
{
    match log.append_all(disk, frames) {
        Err(LogFault::Device) => answers_broken(alloc, log, disk, frames),
        _ => false,
    }
}

/// How many device calls the opening of an empty file makes.
fn opening_calls(alloc: Global) -> Result<u64, Fail> {
    let mut disk = empty_disk(alloc, None)?;
    Log::open_log(alloc, &mut disk, 0)?;
    Ok(disk.calls())
}

/// Whether an append to an empty log breaks it, where the disk's calls behind the first so many fail.
fn is_broken_behind(alloc: Global, calls: u64, frames: &[Frame]) -> Result<bool, Fail> {
    let mut disk = empty_disk(alloc, Some(calls))?;
    let mut log = Log::open_log(alloc, &mut disk, 0)?;
    Ok(breaks(alloc, &mut log, &mut disk, frames) && disk.faults() > 0)
}

#[test]
fn a_log_is_broken_by_each_call_that_fails(rt: HostRuntime) -> Result<(), Fail> {
    let frames = two_frames(rt.alloc())?;
    let opened = opening_calls(rt.alloc())?;
    for more in 0..6 {
        let calls = opened.saturating_add(more);
        assert!(rt;
            is_broken_behind(rt.alloc(), calls, frames.as_slice())?,
            "behind {calls}"
        );
    }
    Ok(())
}
