// Where a folder's files lie.
ghost use Rattle.std.specs.Prelude.{◌≡◌, ◌≢◌, ◌++◌, ◌∷◌, [], ◌<◌, ◌^◌, ℕ, true, false, map, IfOk, MatchOption, Some, string_bytes};
ghost use Rattle.file_host.specs.Places.{file_name, task_folder, stream_folder, system_folder, disk_folder, is_whole, path_of_word, entered_folder, folders_above};

use disk_model::DiskName;
use samza_model::Bin;
use std::alloc::Global;
use std::io::{Error, ErrorKind, Result};

/// The path of a folder by the word that names it: with one slash behind it, unless it ends in one. The empty word is where
/// the process runs.
pub(crate) fn folder_path(alloc: Global, folder: &str) -> Result<String>
    ensures whole { is_whole folder.now ≡ true → IfOk result (λ p. string_bytes p ≡ folder.now) }
    ensures slashed { is_whole folder.now ≡ false
        → IfOk result (λ p. string_bytes p ≡ folder.now ++ 47 ∷ []) }
    ensures path { IfOk result (λ p. string_bytes p ≡ path_of_word folder.now) }
{
    if folder.is_empty() || folder.ends_with('/') {
        path_in(alloc, folder, "")
    } else {
        path_in(alloc, folder, "/")
    }
}

/// The path of a file in a folder.
pub(crate) fn path_in(alloc: Global, folder: &str, file: &str) -> Result<String>
    ensures { IfOk result (λ p. string_bytes p ≡ folder.now ++ file.now) }
{
    let mut path = String::new(alloc);
    append(&mut path, folder)?;
    append(&mut path, file)?;
    Ok(path)
}

/// The folder of a disk, with a slash behind it.
pub(crate) fn disk_path(alloc: Global, folder: &str, name: &DiskName) -> Result<String>
    ensures { IfOk result (λ p. string_bytes p ≡ disk_folder folder.now name.now) }
{
    match name {
        DiskName::Task(task) => task_path(alloc, folder, *task),
        DiskName::Stream { system, stream } => stream_path(alloc, folder, system, stream),
    }
}

fn task_path(alloc: Global, folder: &str, task: u32) -> Result<String>
    ensures { IfOk result (λ p. string_bytes p ≡ task_folder folder.now task) }
{
    let mut path = path_in(alloc, folder, "tasks/")?;
    match write!(path, "{task}/") {
        Ok(()) => Ok(path),
        Err(_) => Err(Error::from(ErrorKind::OutOfMemory)),
    }
}

/// The folder of a stream, with a slash behind it.
fn stream_path(alloc: Global, folder: &str, system: &Bin, stream: &Bin) -> Result<String>
    ensures { IfOk result (λ p. string_bytes p ≡ stream_folder folder.now system.now stream.now) }
{
    let mut path = system_path(alloc, folder, system)?;
    append(&mut path, folder_name(stream)?)?;
    append(&mut path, "/")?;
    Ok(path)
}

/// The folder of a system's streams, with a slash behind it.
fn system_path(alloc: Global, folder: &str, system: &Bin) -> Result<String>
    ensures { IfOk result (λ p. string_bytes p ≡ system_folder folder.now system.now) }
{
    let mut path = path_in(alloc, folder, "streams/")?;
    append(&mut path, folder_name(system)?)?;
    append(&mut path, "/")?;
    Ok(path)
}

/// The bytes as the name of one folder. No other bytes name a folder below this one, so no device has it.
fn folder_name(bytes: &Bin) -> Result<&str>
    ensures { IfOk result (λ t. t.now ≡ bytes.now) }
{
    match std::str::from_utf8(bytes.bytes()) {
        Ok("" | "." | "..") => Err(no_name()),
        Ok(name) if name.contains('/') => Err(no_name()),
        Ok(name) => Ok(name),
        Err(_) => Err(no_name()),
    }
}

fn no_name() -> Error {
    Error::new(ErrorKind::InvalidFilename, "not a folder's name")
}

/// The folders above a disk's, from the one that was entered on.
pub(crate) fn paths_above(alloc: Global, folder: &str, name: &DiskName) -> Result<Vec<String>>
    ensures { IfOk result (λ v. map string_bytes v.items ≡ folders_above folder.now name.now) }
{
    let mut paths = Vec::new(alloc);
    paths.push(entered_path(alloc, folder)?)?;
    match name {
        DiskName::Task(_) => paths.push(path_in(alloc, folder, "tasks/")?)?,
        DiskName::Stream { system, .. } => {
            paths.push(path_in(alloc, folder, "streams/")?)?;
            paths.push(system_path(alloc, folder, system)?)?;
        }
    }
    Ok(paths)
}

/// The path by which the entered folder itself is opened.
fn entered_path(alloc: Global, folder: &str) -> Result<String>
    ensures { IfOk result (λ p. string_bytes p ≡ entered_folder folder.now) }
{
    if folder.is_empty() {
        path_in(alloc, "./", "")
    } else {
        path_in(alloc, folder, "")
    }
}

/// The path of a file of a disk's folder.
pub(crate) fn file_path(alloc: Global, disk: &str, file: u32) -> Result<String>
    ensures { IfOk result (λ p. string_bytes p ≡ disk.now ++ file_name file) }
{
    let mut path = path_in(alloc, disk, "")?;
    match write!(path, "{file}.log") {
        Ok(()) => Ok(path),
        Err(_) => Err(Error::from(ErrorKind::OutOfMemory)),
    }
}

/// The number of the partition whose file has this name: `<number>.log`, in decimal without leading zeros.
pub(crate) fn partition_of(alloc: Global, file: &str) -> Result<Option<u32>>
    ensures { IfOk result (λ p. MatchOption p ((n : ℕ) → n < 2 ^ 32
        → file.now ≢ file_name n) (λ n. file.now ≡ file_name n)) }
{
    let Some(number) = number_before_end(file) else {
        return Ok(None);
    };
    let own = file_path(alloc, "", number)?;
    if own.as_str() == file {
        Ok(Some(number))
    } else {
        Ok(None)
    }
}

/// The number before `.log`, however it is written.
fn number_before_end(file: &str) -> Option<u32>
    ensures { (n : ℕ) → n < 2 ^ 32 → file.now ≡ file_name n → result ≡ Some n }
{
    let digits = file.strip_suffix(".log")?;
    digits.parse().ok()
}

fn append(path: &mut String, text: &str) -> Result<()>
    ensures { IfOk result (λ _. string_bytes path.new ≡ string_bytes path.old ++ text.now) }
{
    match path.push_str(text) {
        Ok(()) => Ok(()),
        Err(_) => Err(Error::from(ErrorKind::OutOfMemory)),
    }
}
