// The paths of one disk's folder, in memory that is taken when the disk is lent.
ghost use Rattle.std.specs.Prelude.{◌≡◌, ◌++◌, ◌+◌, ◌≤◌, length, map, IfOk, string_bytes, string_len, string_capacity};
ghost use Rattle.file_host.specs.Places.{disk_folder, file_name, folders_above};

use crate::paths::{disk_path, paths_above};
use disk_model::DiskName;
use itoa::Buffer;
use std::alloc::Global;
use std::io::Result;

/// Room for a file's name in its folder: a number of up to 10 digits and `.log`.
const FILE_NAME_ROOM: usize = 14;

/// The paths of a disk. A file's path is written into memory that was reserved, so that no call takes any.
#[derive(Drop)]
pub(crate) struct DiskPaths {
    /// The disk's folder, with a slash behind it.
    pub(crate) folder: String,
    /// The folders above it, from the one that was entered on.
    pub(crate) above: Vec<String>,
    /// A file's path, written anew in each call.
    path: String,
    ghost room: { string_len folder + 14 ≤ string_capacity path },
}

impl DiskPaths {
    /// The paths of the disk of this name in a folder.
    pub(crate) fn new(alloc: Global, folder: &str, name: &DiskName) -> Result<DiskPaths>
        ensures folder { IfOk result (λ d. string_bytes d.folder ≡ disk_folder folder.now
            name.now) }
        ensures above { IfOk result (λ d. map string_bytes d.above.items ≡ folders_above folder.now
            name.now) }
    {
        let above = paths_above(alloc, folder, name)?;
        let folder = disk_path(alloc, folder, name)?;
        let room = folder.len().saturating_add(FILE_NAME_ROOM);
        let path = String::with_capacity(alloc, room)?;
        Ok(DiskPaths {
            folder,
            above,
            path,
        })
    }

    /// The path of a file. No memory is taken, so it can't be refused.
    pub(crate) fn of_file(&mut self, file: u32) -> &str
        ensures path { result.now ≡ string_bytes self.old.folder ++ file_name file }
    {
        let mut digits = Buffer::new();
        self.path.clear();
        append_in_room(&mut self.path, self.folder.as_str());
        append_in_room(&mut self.path, digits.format(file));
        append_in_room(&mut self.path, ".log");
        self.path.as_str()
    }
}

/// Appends a text for which there is room.
fn append_in_room(path: &mut String, text: &str)
    requires { string_len path.old + length text.now ≤ string_capacity path.old }
    ensures bytes { string_bytes path.new ≡ string_bytes path.old ++ text.now }
    ensures len { string_len path.new ≡ string_len path.old + length text.now }
    ensures room { string_capacity path.old ≤ string_capacity path.new }
{
    if path.push_str(text).is_err() {
        unreachable!()
    }
}
