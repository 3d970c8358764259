ghost use Rattle.std.specs.Prelude.{◌≡◌, IfOk};
ghost use Rattle.disk_model.specs.Handles.{NoneOut};
ghost use Rattle.file_host.specs.Folders.{folder_disks_out, folder_shelves_out};

use crate::comparing::is_same;
use disk_model::{Disk, DiskFault, DiskName, Host, Shelf};
use file_host::*;
use samza_model::Bin;
use std::alloc::Global;
use std::fs;
use std::fs::File;
use std::os::unix::fs::symlink;
use std::process::Abort;
use std::test::Fail;

fn stream_in(alloc: Global) -> Result<DiskName, Fail> {
    Ok(DiskName::Stream {
        system: Bin::of(alloc, b"kafka")?,
        stream: Bin::of(alloc, b"in.1")?,
    })
}

/// The host of a folder of the one that the tests are run in.
fn folder(rt: &HostRuntime, name: &str) -> Result<FileHost<HostRuntime>, Fail>
    ensures { IfOk result (λ h. NoneOut (folder_disks_out h) (folder_shelves_out h)) }
{
    let mut host = FileHost::new(rt.clone()?);
    match host.enter(rt.alloc(), name) {
        Ok(()) => Ok(host),
        Err(fault) => {
            let_go(host);
            Err(Fail::from(fault))
        }
    }
}

/// Lets a host go, so that no test has to part by part.
fn let_go(_host: FileHost<HostRuntime>) {}

/// What a disk tells of a file of six bytes of which two were cut off: its size, whether a read past its end is refused,
/// three of its bytes, and how many calls were made.
fn cut_file(
    disk: &mut FileDisk<HostRuntime>,
    file: u32,
) -> Result<(u64, bool, [u8; 3], u64), DiskFault>
    ensures { ⟦<FileDisk<HostRuntime> as Disk>⟧.name disk.new ≡ ⟦<FileDisk<HostRuntime> as Disk>⟧.name disk.old }
{
    disk.write_at(file, 0, b"abcdef")?;
    disk.cut(file, 4)?;
    disk.sync(file)?;
    let mut bytes = [0u8; 3];
    let is_refused = disk.read_at(file, 2, &mut bytes).is_err();
    disk.read_at(file, 1, &mut bytes)?;
    let size = disk.size(file)?;
    Ok((size, is_refused, bytes, disk.calls()))
}

fn told_of_a_disk(
    alloc: Global,
    host: &mut FileHost<HostRuntime>,
) -> Result<((u64, bool, [u8; 3], u64), u64), Fail>
    requires { NoneOut (folder_disks_out host.old) (folder_shelves_out host.old) }
{
    let task = DiskName::Task(7);
    let mut disk = host.lend(alloc, &task)?;
    let told = cut_file(&mut disk, 3);
    host.take_disk(&task, disk);
    Ok((told?, host.faults()))
}

/// What a disk of a folder tells, and the host's number of faults.
fn kept(rt: &HostRuntime) -> Result<((u64, bool, [u8; 3], u64), u64), Fail> {
    let mut host = folder(rt, "keeps")?;
    let told = told_of_a_disk(rt.alloc(), &mut host);
    let_go(host);
    told
}

#[test]
fn a_folder_keeps_what_a_disk_writes(rt: HostRuntime) -> Result<(), Fail> {
    is_same(&rt, kept(&rt)?, ((4, true, [98, 99, 100], 6), 1));
    Ok(())
}

/// What a shelf tells of a file of three bytes: its size, whether a read past its end is refused, and its last two bytes.
fn last_bytes(shelf: &mut FileShelf) -> Result<(u64, bool, [u8; 2]), DiskFault>
    ensures { ⟦<FileShelf as Shelf>⟧.name shelf.new ≡ ⟦<FileShelf as Shelf>⟧.name shelf.old }
{
    let mut bytes = [0u8; 2];
    let is_refused = shelf.read_at(2, &mut bytes).is_err();
    shelf.read_at(1, &mut bytes)?;
    let size = shelf.size()?;
    Ok((size, is_refused, bytes))
}

fn told_of_a_shelf(
    alloc: Global,
    host: &mut FileHost<HostRuntime>,
    name: &DiskName,
) -> Result<((u64, bool, [u8; 2]), u64), Fail>
    requires { NoneOut (folder_disks_out host.old) (folder_shelves_out host.old) }
{
    let mut shelf = host.shelf(alloc, name, 11)?;
    let told = last_bytes(&mut shelf);
    host.take_shelf(shelf);
    Ok((told?, host.faults()))
}

/// What a shelf of a folder tells, and the host's number of faults.
fn shown(rt: &HostRuntime) -> Result<((u64, bool, [u8; 2]), u64), Fail> {
    fs::create_dir_all(rt, "shows/streams/kafka/in.1")?;
    fs::write(rt, "shows/streams/kafka/in.1/11.log", b"xyz".as_slice())?;
    let name = stream_in(rt.alloc())?;
    let mut host = folder(rt, "shows")?;
    let told = told_of_a_shelf(rt.alloc(), &mut host, &name);
    let_go(host);
    told
}

#[test]
fn a_folder_shows_its_files(rt: HostRuntime) -> Result<(), Fail> {
    is_same(&rt, shown(&rt)?, ((3, true, [121, 122]), 1));
    is_same(&rt, text_of(&rt, "shows")?.is_none(), true);
    Ok(())
}

/// The configuration of a folder.
fn text_of(rt: &HostRuntime, name: &str) -> Result<Option<Vec<u8>>, Fail> {
    let mut host = folder(rt, name)?;
    let text = host.text(rt.alloc());
    let_go(host);
    Ok(text?)
}

/// Names of files that come one after the other, and the number of partitions with each.
const FILES: &[(&str, u32)] = &[
    ("0.log", 1),
    ("04.log", 1),
    ("+5.log", 1),
    ("6.txt", 1),
    (".log", 1),
    ("4294967296.log", 1),
    ("9.log", 10),
    ("10.log", 11),
    ("4294967294.log", 4294967295),
    ("4294967295.log", 4294967295),
];

/// Makes an empty file of the stream.
fn make_file(rt: &HostRuntime, file: &str) -> Result<(), Fail> {
    let mut path = String::from_str(rt.alloc(), "counts/streams/kafka/in.1/")?;
    path.push_str(file)?;
    fs::write(rt, path.as_str(), b"".as_slice())?;
    Ok(())
}

/// How many partitions the stream has.
fn partitions(alloc: Global, host: &mut FileHost<HostRuntime>) -> Result<u32, Fail> {
    let system = Bin::of(alloc, b"kafka")?;
    let stream = Bin::of(alloc, b"in.1")?;
    Ok(host.partitions(alloc, &system, &stream)?)
}

/// How many of the files are made until another number of partitions is counted than it is to be.
fn counted_well(rt: &HostRuntime, host: &mut FileHost<HostRuntime>) -> Result<usize, Fail> {
    for (made, (file, count)) in FILES.iter().enumerate() {
        make_file(rt, file)?;
        if partitions(rt.alloc(), host)? != *count {
            return Ok(made);
        }
    }
    Ok(FILES.len())
}

fn counted_from_none(
    rt: &HostRuntime,
    host: &mut FileHost<HostRuntime>,
) -> Result<(u32, usize), Fail> {
    let _ = fs::remove_dir_all(rt, "counts");
    let none = partitions(rt.alloc(), host)?;
    fs::create_dir_all(rt, "counts/streams/kafka/in.1")?;
    Ok((none, counted_well(rt, host)?))
}

/// How many partitions are counted of a stream that isn't there, and how many of the files are counted well.
fn counted(rt: &HostRuntime) -> Result<(u32, usize), Fail> {
    let mut host = folder(rt, "counts")?;
    let told = counted_from_none(rt, &mut host);
    let_go(host);
    told
}

#[test]
fn partitions_are_counted_by_the_files_names(rt: HostRuntime) -> Result<(), Fail> {
    is_same(&rt, counted(&rt)?, (0, FILES.len()));
    Ok(())
}

/// How many entries that are no regular files are counted as partitions: a folder, a link to a device, and a link to nothing;
/// and how many with a link to a regular file.
fn counted_links(rt: &HostRuntime, host: &mut FileHost<HostRuntime>) -> Result<(u32, u32), Fail> {
    let _ = fs::remove_dir_all(rt, "counts");
    fs::create_dir_all(rt, "counts/streams/kafka/in.1/7.log")?;
    symlink(rt, "/dev/null", "counts/streams/kafka/in.1/8.log")?;
    symlink(rt, "none.log", "counts/streams/kafka/in.1/9.log")?;
    let none = partitions(rt.alloc(), host)?;
    make_file(rt, "file")?;
    symlink(rt, "file", "counts/streams/kafka/in.1/2.log")?;
    Ok((none, partitions(rt.alloc(), host)?))
}

fn regular(rt: &HostRuntime) -> Result<(u32, u32), Fail> {
    let mut host = folder(rt, "counts")?;
    let told = counted_links(rt, &mut host);
    let_go(host);
    told
}

#[test]
fn partitions_are_regular_files(rt: HostRuntime) -> Result<(), Fail> {
    is_same(&rt, regular(&rt)?, (0, 3));
    Ok(())
}

/// Makes the folder of the tests of the configuration anew.
fn make_text(rt: &HostRuntime) -> Result<(), Fail> {
    let _ = fs::remove_dir_all(rt, "text");
    fs::create_dir(rt, "text")?;
    Ok(())
}

/// The configuration of that folder, and whether there is a cause of a failure.
fn read(rt: &HostRuntime) -> Result<(Option<Vec<u8>>, bool), Fail> {
    let mut host = folder(rt, "text")?;
    let text = host.text(rt.alloc());
    let has_failed = host.cause().is_some();
    let_go(host);
    Ok((text?, has_failed))
}

/// Whether there is a configuration, and it has these bytes.
fn is_text(text: &Option<Vec<u8>>, want: &[u8]) -> bool {
    match text {
        Some(text) => text.as_slice() == want,
        None => false,
    }
}

/// The number of a configuration's bytes, 0 where there is none.
fn length(text: &Option<Vec<u8>>) -> usize {
    match text {
        Some(text) => text.len(),
        None => 0,
    }
}

#[test]
fn the_configuration_is_read(rt: HostRuntime) -> Result<(), Fail> {
    make_text(&rt)?;
    fs::write(&rt, "text/job.properties", b"a=b".as_slice())?;
    let (text, has_failed) = read(&rt)?;
    is_same(&rt, (is_text(&text, b"a=b"), has_failed), (true, false));
    Ok(())
}

#[test]
fn a_configuration_that_is_too_long_is_read_to_its_bound(rt: HostRuntime) -> Result<(), Fail> {
    make_text(&rt)?;
    let file = File::create(&rt, "text/job.properties")?;
    file.set_len(1 << 30)?;
    let (text, _) = read(&rt)?;
    is_same(&rt, length(&text), 1_048_577);
    Ok(())
}

/// Whether a call was refused, the number of faults, and the words of the host's first failure.
type Told = (bool, u64, String);

fn told(alloc: Global, host: &FileHost<HostRuntime>, is_refused: bool) -> Result<Told, Fail> {
    let mut words = String::new(alloc);
    if let Some(cause) = host.cause() {
        write!(words, "{cause}")?;
    }
    Ok((is_refused, host.faults(), words))
}

/// The call was refused, with so many faults and these words.
fn tells(rt: &impl Abort, told: Told, faults: u64, words: &str) {
    is_same(rt, (told.0, told.1), (true, faults));
    is_same(rt, told.2.as_str(), words);
}

fn told_of_a_device(rt: &HostRuntime) -> Result<Told, Fail> {
    make_text(rt)?;
    symlink(rt, "/dev/zero", "text/job.properties")?;
    let mut host = folder(rt, "text")?;
    let is_refused = host.text(rt.alloc()).is_err();
    let told = told(rt.alloc(), &host, is_refused);
    let_go(host);
    told
}

#[test]
fn a_device_in_place_of_the_configuration_is_refused(rt: HostRuntime) -> Result<(), Fail> {
    let told = told_of_a_device(&rt)?;
    tells(&rt, told, 1, "text job.properties: not a regular file");
    Ok(())
}

fn told_of_a_folder(rt: &HostRuntime) -> Result<Told, Fail> {
    let name = stream_in(rt.alloc())?;
    fs::create_dir_all(rt, "shelved/streams/kafka/in.1/3.log")?;
    let mut host = folder(rt, "shelved")?;
    let is_refused = host.shelf(rt.alloc(), &name, 3).is_err();
    let told = told(rt.alloc(), &host, is_refused);
    let_go(host);
    told
}

#[test]
fn a_folder_in_place_of_a_shelfs_file_is_refused(rt: HostRuntime) -> Result<(), Fail> {
    let told = told_of_a_folder(&rt)?;
    tells(
        &rt,
        told,
        1,
        "shelf streams/kafka/in.1/3.log: not a regular file",
    );
    Ok(())
}

/// Whether both calls fail on a folder in place of the file.
fn fails_twice(disk: &mut FileDisk<HostRuntime>, file: u32) -> bool
    ensures { ⟦<FileDisk<HostRuntime> as Disk>⟧.name disk.new ≡ ⟦<FileDisk<HostRuntime> as Disk>⟧.name disk.old }
{
    let is_refused = disk.size(file).is_err();
    disk.sync(file).is_err() && is_refused
}

fn first_told(alloc: Global, host: &mut FileHost<HostRuntime>) -> Result<Told, Fail>
    requires { NoneOut (folder_disks_out host.old) (folder_shelves_out host.old) }
{
    let task = DiskName::Task(7);
    let mut disk = host.lend(alloc, &task)?;
    let has_failed = fails_twice(&mut disk, 16);
    host.take_disk(&task, disk);
    told(alloc, host, has_failed)
}

fn told_of_two(rt: &HostRuntime) -> Result<Told, Fail> {
    fs::create_dir_all(rt, "told/tasks/7/16.log")?;
    let mut host = folder(rt, "told")?;
    let told = first_told(rt.alloc(), &mut host);
    let_go(host);
    told
}

#[test]
fn the_first_failure_of_a_disk_is_told(rt: HostRuntime) -> Result<(), Fail> {
    let told = told_of_two(&rt)?;
    tells(&rt, told, 2, "size tasks/7/16.log: not a regular file");
    Ok(())
}

fn told_of_a_file(rt: &HostRuntime) -> Result<Told, Fail> {
    let _ = fs::create_dir(rt, "blocked");
    fs::write(rt, "blocked/tasks", b"".as_slice())?;
    let mut host = folder(rt, "blocked")?;
    let is_refused = host.lend(rt.alloc(), &DiskName::Task(0)).is_err();
    let told = told(rt.alloc(), &host, is_refused);
    let_go(host);
    told
}

#[test]
fn a_file_in_place_of_a_folder_is_told(rt: HostRuntime) -> Result<(), Fail> {
    let told = told_of_a_file(&rt)?;
    tells(&rt, told, 1, "lend tasks/0/: Not a directory (os error 20)");
    Ok(())
}
