// What a host of real files asks of the system.
ghost use Rattle.std.specs.Prelude.{◌≡◌, ◌≢◌, ◌<◌, ◌^◌, ◌+◌, ◌-◌, ℕ, min, IfOk, string_bytes};
ghost use Rattle.file_host.specs.Places.{disk_folder, file_name};

use crate::disk_paths::DiskPaths;
use crate::paths::{disk_path, file_path, partition_of, path_in};
use crate::system_calls::{is_file, open_if_there};
use disk_model::DiskName;
use std::alloc::Global;
use std::fs;
use std::fs::{DirEntry, File};
use std::io::{ErrorKind, Read, Result};
use std::rt::Files;

/// How much of a configuration's text is read at most: one byte more than the longest that there may be, so that what is
/// longer is seen to be.
const MOST_TEXT: u64 = 1_048_577;

/// The bytes of the configuration up to the bound, or `None` where its file isn't there.
pub(crate) fn read_text<R: Files<File = File>>(
    alloc: Global,
    files: &R,
    folder: &str,
) -> Result<Option<Vec<u8>>> {
    let path = path_in(alloc, folder, "job.properties")?;
    let Some(opened) = open_if_there(files, path.as_str())? else {
        return Ok(None);
    };
    let mut bytes = Vec::new(alloc);
    opened.take(MOST_TEXT).read_to_end(&mut bytes)?;
    Ok(Some(bytes))
}

/// One more than the greatest number of a stream's file, at most 2^32 - 1, and 0 where it has none.
pub(crate) fn count_partitions<R: Files<File = File> + AllocGlobal + Clone + Drop>(
    alloc: Global,
    files: &R,
    folder: &str,
    name: &DiskName,
) -> Result<u32> {
    let path = disk_path(alloc, folder, name)?;
    let entries = match fs::read_dir(files, path.as_str()) {
        Ok(entries) => entries,
        Err(error) if error.kind() == ErrorKind::NotFound => return Ok(0),
        Err(error) => return Err(error),
    };
    let mut count = 0u32;
    for entry in entries {
        match entry {
            Ok(entry) => count = greater_count(alloc, files, count, &entry)?,
            // a name that isn't text is no partition's
            Err(error) if error.kind() == ErrorKind::InvalidFilename => {}
            Err(error) => return Err(error),
        }
    }
    Ok(count)
}

/// The count of partitions with one more entry of the folder. What is no regular file is no partition.
fn greater_count<R: Files<File = File>, F: Files + Drop>(
    alloc: Global,
    files: &R,
    count: u32,
    entry: &DirEntry<F>,
) -> Result<u32> {
    let more = count_with(alloc, entry.file_name())?;
    if more > count && is_file(files, entry.path().as_str())? {
        Ok(more)
    } else {
        Ok(count)
    }
}

/// The count of partitions where a file of this name is there.
fn count_with(alloc: Global, file: &str) -> Result<u32>
    ensures some { IfOk result (λ count. (n : ℕ) → n < 2 ^ 32 → file.now ≡ file_name n
        → count ≡ min (n + 1) (2 ^ 32 - 1)) }
    ensures none { IfOk result (λ count. ((n : ℕ) → n < 2 ^ 32 → file.now ≢ file_name n)
        → count ≡ 0) }
{
    match partition_of(alloc, file)? {
        Some(partition) => Ok(partition.saturating_add(1)),
        None => Ok(0),
    }
}

/// One file of a disk, opened for reading, or `None` where it isn't there.
pub(crate) fn open_file<R: Files<File = File>>(
    alloc: Global,
    files: &R,
    folder: &str,
    name: &DiskName,
    file: u32,
) -> Result<Option<File>> {
    let disk = disk_path(alloc, folder, name)?;
    let path = file_path(alloc, disk.as_str(), file)?;
    open_if_there(files, path.as_str())
}

/// The paths of the disk of this name, whose folder is made where it is missing.
pub(crate) fn make_folder<R: Files<File = File>>(
    alloc: Global,
    files: &R,
    folder: &str,
    name: &DiskName,
) -> Result<DiskPaths>
    ensures { IfOk result (λ d. string_bytes d.folder ≡ disk_folder folder.now name.now) }
{
    let paths = DiskPaths::new(alloc, folder, name)?;
    fs::create_dir_all(files, paths.folder.as_str())?;
    Ok(paths)
}
