ghost use Rattle.std.specs.Prelude.{IfOk, OnOk};
ghost use Rattle.disk_model.specs.Handles.{NoneOut};
ghost use Rattle.disk_model.specs.MemoryHost.{host_disks_out, host_shelves_out};

use crate::comparing::is_same;
use disk_model::*;
use samza_model::{Bin, NoMemory};
use std::alloc::Global;
use std::test::Fail;

fn small_disk(
    alloc: Global,
    fail_at: Vec<u64>,
    stop_after: Option<u64>,
) -> Result<MemDisk, NoMemory> {
    MemDisk::new(alloc, DiskName::Task(0), 2, 4, 4, fail_at, stop_after)
}

/// Whether each of four syncs goes well.
fn syncs(alloc: Global, fail_at: Vec<u64>, stop_after: Option<u64>) -> Result<[bool; 4], NoMemory> {
    let mut disk = small_disk(alloc, fail_at, stop_after)?;
    let first = disk.sync(0).is_ok();
    let second = disk.sync(0).is_ok();
    let third = disk.sync(0).is_ok();
    let fourth = disk.sync(0).is_ok();
    Ok([first, second, third, fourth])
}

/// The size and the bytes of file 1 once it was emptied, and how many calls that and a read of nothing took.
fn emptied(disk: &mut MemDisk) -> Result<(u64, usize, u64), DiskFault> {
    disk.cut(1, 0)?;
    disk.read_at(1, 0, &mut [])?;
    let size = disk.size(1)?;
    Ok((size, disk.bytes(1).len(), disk.calls()))
}

#[test]
fn a_disk_reads_what_was_written(rt: HostRuntime) -> Result<(), Fail> {
    let mut disk = small_disk(rt.alloc(), Vec::new(rt.alloc()), None)?;
    let is_written = disk.write_at(1, 0, b"abc").is_ok();
    is_same(&rt, (is_written, disk.bytes(1)), (true, b"abc".as_slice()));
    let told = emptied(&mut disk);
    is_same(&rt, (told, disk.faults()), (Ok((0, 0, 4)), 0));
    Ok(())
}

/// Whether each of four syncs goes well where the first and the third were told to fail, where those behind two were, and
/// where none was.
const SYNCS: [(&[u64], Option<u64>, [bool; 4]); 3] = [
    (&[1, 3], None, [true, false, true, false]),
    (&[], Some(2), [true, true, false, false]),
    (&[], None, [true, true, true, true]),
];

#[test]
fn calls_fail_where_they_are_told_to(rt: HostRuntime) -> Result<(), Fail> {
    for (fail_at, stop_after, want) in SYNCS {
        let fail_at = Vec::from_slice(rt.alloc(), fail_at)?;
        is_same(&rt, syncs(rt.alloc(), fail_at, stop_after)?, want);
    }
    Ok(())
}

/// Whether each of four writes and a sync goes well: past the room, past the files, within both, past what can be written in
/// all, and past the calls.
fn bounded(disk: &mut MemDisk) -> [bool; 5] {
    let long = disk.write_at(0, 0, b"abcde").is_ok();
    let beyond = disk.write_at(2, 0, b"a").is_ok();
    let within = disk.write_at(0, 0, b"abcd").is_ok();
    let more = disk.write_at(1, 0, b"a").is_ok();
    [long, beyond, within, more, disk.sync(0).is_ok()]
}

#[test]
fn writes_past_the_room_and_calls_past_the_record_fail(rt: HostRuntime) -> Result<(), Fail> {
    let mut disk = small_disk(rt.alloc(), Vec::new(rt.alloc()), None)?;
    let well = bounded(&mut disk);
    let faults = disk.faults();
    disk.arm(Vec::new(rt.alloc()), Some(0));
    is_same(&rt, well, [false, false, true, false, false]);
    is_same(&rt, (faults, disk.calls()), (4, 5));
    Ok(())
}

/// Whether a byte is written to a disk that is lent.
fn lent(alloc: Global, host: &mut MemHost, task: &DiskName) -> Result<bool, HostFault>
    requires { NoneOut (host_disks_out host.old) (host_shelves_out host.old) }
    ensures { NoneOut (host_disks_out host.new) (host_shelves_out host.new) }
{
    let mut disk = host.lend(alloc, task)?;
    let is_written = disk.write_at(3, 0, b"q").is_ok();
    host.take_disk(task, disk);
    Ok(is_written)
}

/// The size of a file as its shelf tells it.
fn shelved(
    alloc: Global,
    host: &mut MemHost,
    name: &DiskName,
    file: u32,
) -> Result<Result<u64, DiskFault>, HostFault>
    requires { NoneOut (host_disks_out host.old) (host_shelves_out host.old) }
{
    let mut shelf = host.shelf(alloc, name, file)?;
    let size = shelf.size();
    host.take_shelf(shelf);
    Ok(size)
}

/// Whether the byte is written, whether it is then in the file, what the file's shelf tells of its size, and the number of faults.
fn lends(
    alloc: Global,
    host: &mut MemHost,
) -> Result<(bool, bool, Result<u64, DiskFault>, u64), HostFault>
    requires { NoneOut (host_disks_out host.old) (host_shelves_out host.old) }
{
    let task = DiskName::Task(0);
    let is_written = lent(alloc, host, &task)?;
    let is_there = host.file(&task, 3) == b"q".as_slice();
    let size = shelved(alloc, host, &task, 3)?;
    Ok((is_written, is_there, size, host.faults()))
}

fn lent_by_a_host(alloc: Global) -> Result<(bool, bool, Result<u64, DiskFault>, u64), HostFault> {
    let mut host = MemHost::new(alloc, None, 64, 16)?;
    let told = lends(alloc, &mut host);
    let_go(host);
    told
}

#[test]
fn a_host_lends_and_takes_back(rt: HostRuntime) -> Result<(), Fail> {
    is_same(&rt, lent_by_a_host(rt.alloc())?, (true, true, Ok(1), 0));
    Ok(())
}

/// The stream in of kafka.
fn stream_in(alloc: Global) -> Result<DiskName, NoMemory> {
    let system = Bin::of(alloc, b"kafka")?;
    let stream = Bin::of(alloc, b"in")?;
    Ok(DiskName::Stream { system, stream })
}

/// Puts bytes in the place of a file, where they fit.
fn put(host: &mut MemHost, name: &DiskName, file: u32, bytes: &[u8]) -> Result<(), Fail>
    requires { NoneOut (host_disks_out host.old) (host_shelves_out host.old) }
    ensures { NoneOut (host_disks_out host.new) (host_shelves_out host.new) }
{
    if !host.fits(name, file, bytes.len()) {
        return Err(Fail::new("it doesn't fit"));
    }
    host.put_file(name, file, bytes)?;
    Ok(())
}

/// A host whose disk of this name has "xyz" in file 1.
fn host_of(alloc: Global, name: &DiskName) -> Result<MemHost, Fail>
    ensures { IfOk result (λ h. NoneOut (host_disks_out h) (host_shelves_out h)) }
{
    let mut host = MemHost::new(alloc, None, 64, 16)?;
    match put(&mut host, name, 1, b"xyz") {
        Ok(()) => Ok(host),
        Err(fail) => {
            let_go(host);
            Err(fail)
        }
    }
}

/// Lets a host go, so that no test has to part by part.
fn let_go(_host: MemHost) {}

#[test]
fn a_host_shows_the_files_that_were_put(rt: HostRuntime) -> Result<(), Fail> {
    let system = Bin::of(rt.alloc(), b"kafka")?;
    let stream = Bin::of(rt.alloc(), b"in")?;
    let name = stream_in(rt.alloc())?;
    let mut host = host_of(rt.alloc(), &name)?;
    is_same(&rt, host.file(&name, 1), b"xyz".as_slice());
    is_same(&rt, host.file(&name, 0), b"".as_slice());
    let partitions = host.partitions(rt.alloc(), &system, &stream);
    is_same(&rt, partitions, Ok(2));
    let_go(host);
    Ok(())
}

/// Where bytes fit: below the number of a disk's files, and within the room.
#[test]
fn a_file_fits_below_the_number_of_files_and_within_the_room(rt: HostRuntime) -> Result<(), Fail> {
    let stream = stream_in(rt.alloc())?;
    let task = DiskName::Task(7);
    let host = host_of(rt.alloc(), &stream)?;
    let files = [
        host.fits(&task, 63, 64),
        host.fits(&task, 64, 0),
        host.fits(&stream, 255, 64),
        host.fits(&stream, 256, 0),
    ];
    is_same(
        &rt,
        (files, host.fits(&stream, 1, 65)),
        ([true, false, true, false], false),
    );
    let_go(host);
    Ok(())
}

#[test]
fn a_hosts_calls_fail_where_they_are_told_to(rt: HostRuntime) -> Result<(), Fail> {
    let alloc = rt.alloc();
    let text = vec![in alloc; 1]?;
    let calls = vec![in alloc; 1]?;
    let mut host = MemHost::new(alloc, Some(text), 64, 16)?;
    host.fail_next(calls);
    let is_entered = host.enter(alloc, "f").is_ok();
    let is_read = host.text(alloc).is_ok();
    is_same(&rt, (is_entered, is_read, host.faults()), (true, false, 1));
    let_go(host);
    Ok(())
}

/// What the size of a file is told to be where each call is to fail.
fn armed(
    alloc: Global,
    host: &mut MemHost,
    name: &DiskName,
) -> Result<Result<u64, DiskFault>, HostFault>
    requires { NoneOut (host_disks_out host.old) (host_shelves_out host.old) }
{
    host.arm(name, Vec::new(alloc), Some(0))?;
    shelved(alloc, host, name, 1)
}

#[test]
fn the_calls_of_an_armed_shelf_fail(rt: HostRuntime) -> Result<(), Fail> {
    let name = stream_in(rt.alloc())?;
    let mut host = host_of(rt.alloc(), &name)?;
    let size = armed(rt.alloc(), &mut host, &name).ok();
    is_same(
        &rt,
        (size, host.faults()),
        (Some(Err(DiskFault::Failed)), 1),
    );
    let_go(host);
    Ok(())
}

/// Writes "abcd" to file 0 and, behind a sync, "wx" over it, and "gh" and then "ij" to file 1.
fn tear(disk: &mut MemDisk) -> Result<(), DiskFault> {
    disk.write_at(0, 0, b"abcd")?;
    disk.sync(0)?;
    disk.write_at(0, 0, b"wx")?;
    disk.write_at(1, 0, b"gh")?;
    disk.write_at(1, 2, b"ij")
}

/// A disk that was written so, of whose next calls the first is to fail.
fn torn_disk(alloc: Global) -> Result<MemDisk, Fail> {
    let calls = vec![in alloc; 0]?;
    let mut disk = MemDisk::new(alloc, DiskName::Task(0), 2, 16, 16, Vec::new(alloc), None)?;
    tear(&mut disk)?;
    disk.arm(calls, None);
    Ok(disk)
}

/// What a crash image of that disk has in its two files, at each pick.
const IMAGES: [(Pick, &[u8], &[u8]); 4] = [
    // what was synced
    (Pick::Old, b"abcd", b""),
    // what was written
    (Pick::New, b"wxcd", b"ghij"),
    // the value where bytes are free
    (Pick::Fill(0x21), b"!!cd", b"!!!!"),
    // the front of each write
    (Pick::Cut(1), b"wbcd", b"g\0i"),
];

#[test]
fn each_image_has_its_bytes(rt: HostRuntime) -> Result<(), Fail> {
    for (pick, first, second) in IMAGES {
        let disk = torn_disk(rt.alloc())?.crash(pick);
        assert_eq!(rt;
            (disk.bytes(0), disk.bytes(1)),
            (first, second),
            "for {pick:?}"
        );
    }
    Ok(())
}

#[test]
fn the_calls_of_an_image_are_counted_anew(rt: HostRuntime) -> Result<(), Fail> {
    let mut disk = torn_disk(rt.alloc())?.crash(Pick::Old);
    is_same(&rt, (disk.calls(), disk.sync(0)), (0, Ok(())));
    Ok(())
}

/// Puts "abcd" in file 0 of two tasks' disks, says that the first one's calls behind the first fail, and writes "wxyz" over it
/// there.
fn tear_host(alloc: Global, host: &mut MemHost, task: &DiskName) -> Result<(), Fail>
    requires { NoneOut (host_disks_out host.old) (host_shelves_out host.old) }
    ensures { OnOk result (NoneOut (host_disks_out host.new) (host_shelves_out host.new)) }
{
    put(host, task, 0, b"abcd")?;
    put(host, &DiskName::Task(1), 0, b"abcd")?;
    host.arm(task, Vec::new(alloc), Some(1))?;
    let mut disk = host.lend(alloc, task)?;
    let _ = disk.write_at(0, 0, b"wxyz");
    host.take_disk(task, disk);
    Ok(())
}

/// A host that was torn so, behind a crash of the first task's disk.
fn crashed_host(alloc: Global, task: &DiskName) -> Result<MemHost, Fail>
    ensures { IfOk result (λ h. NoneOut (host_disks_out h) (host_shelves_out h)) }
{
    let mut host = MemHost::new(alloc, None, 64, 16)?;
    match tear_host(alloc, &mut host, task) {
        Ok(()) => {
            host.crash(task, Pick::Cut(2));
            Ok(host)
        }
        Err(fail) => {
            let_go(host);
            Err(fail)
        }
    }
}

/// How many calls a lent disk has had, and whether two syncs go well.
fn synced(
    alloc: Global,
    host: &mut MemHost,
    task: &DiskName,
) -> Result<(u64, bool, bool), HostFault>
    requires { NoneOut (host_disks_out host.old) (host_shelves_out host.old) }
{
    let mut disk = host.lend(alloc, task)?;
    let well = (disk.calls(), disk.sync(0).is_ok(), disk.sync(0).is_ok());
    host.take_disk(task, disk);
    Ok(well)
}

#[test]
fn a_host_has_the_crash_image_in_place_of_the_disk(rt: HostRuntime) -> Result<(), Fail> {
    let task = DiskName::Task(0);
    let mut host = crashed_host(rt.alloc(), &task)?;
    is_same(&rt, host.file(&task, 0), b"wxcd".as_slice());
    is_same(&rt, host.file(&DiskName::Task(1), 0), b"abcd".as_slice());
    let well = synced(rt.alloc(), &mut host, &task);
    is_same(&rt, well, Ok((0, true, true)));
    let_go(host);
    Ok(())
}
