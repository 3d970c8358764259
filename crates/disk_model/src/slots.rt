// What a host holds by name, and what of it is out.

use crate::DiskName;

/// What stands under a name: a value, or nothing while it is out, and how many shelves of it are out.
#[derive(Drop)]
pub(crate) struct Slot<T> {
    pub(crate) name: DiskName,
    pub(crate) held: Option<T>,
    pub(crate) shelves: u64,
}
