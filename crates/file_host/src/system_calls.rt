// What disks and hosts ask of the system about files and folders.
use std::fs;
use std::fs::{File, OpenFile, OpenOptions};
use std::io::{Error, ErrorKind, Result};
use std::rt::Files;

/// Whether a regular file is there, also by a link. What is there and is no regular file is refused, so that no opening
/// waits for a pipe or a device.
pub(crate) fn is_file_there<R: Files>(files: &R, path: &str) -> Result<bool> {
    match fs::metadata(files, path) {
        Ok(found) if found.is_file() => Ok(true),
        Ok(_) => Err(Error::new(ErrorKind::InvalidInput, "not a regular file")),
        Err(error) if error.kind() == ErrorKind::NotFound => Ok(false),
        Err(error) => Err(error),
    }
}

/// Whether a regular file is there, also by a link.
pub(crate) fn is_file<R: Files>(files: &R, path: &str) -> Result<bool> {
    match fs::metadata(files, path) {
        Ok(found) => Ok(found.is_file()),
        Err(error) if error.kind() == ErrorKind::NotFound => Ok(false),
        Err(error) => Err(error),
    }
}

/// The file, opened for reading, or `None` where it isn't there.
pub(crate) fn open_if_there<R: Files<File = File>>(files: &R, path: &str) -> Result<Option<File>> {
    if !is_file_there(files, path)? {
        return Ok(None);
    }
    Ok(Some(File::open(files, path)?))
}

/// The file, opened for reading and writing, and made where it isn't there.
pub(crate) fn open_or_make<R: Files<File = File>>(files: &R, path: &str) -> Result<File> {
    let mut how = OpenOptions::new();
    how.read(true);
    how.write(true);
    how.create(true);
    how.open(files, path)
}

/// Syncs the entries of a folder.
pub(crate) fn sync_folder<R: Files<File = File>>(files: &R, path: &str) -> Result<()> {
    let opened = File::open(files, path)?;
    opened.sync_all()
}

/// The size of an opened file.
pub(crate) fn size_of(file: &File) -> Result<u64> {
    let found = file.metadata()?;
    Ok(found.len())
}
