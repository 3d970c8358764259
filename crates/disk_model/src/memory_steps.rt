// Small steps of a disk in memory.
ghost use Rattle.std.specs.Prelude.{◌≡◌, ◌+◌, ◌≤◌, if◌then◌else◌, length, take, drop};
ghost use Rattle.disk_model.specs.declared.traces.Entry.{Entry};

use crate::traces::Entry;

/// Fills the buffer from this place of the bytes.
pub(crate) fn read_from(bytes: &[u8], at: usize, into: &mut [u8])
    requires { at + length into.old ≤ length bytes.now }
    ensures { into.new ≡ take (length into.old) (drop at bytes.now) }
{
    let end = at + into.len();
    into.copy_from_slice(&bytes[at..end]);
}

/// What a sync notes: nothing where it fails.
pub(crate) fn sync_entry(failing: bool, file: u32) -> Entry
    ensures { result ≡ (if failing then Entry.Quiet else Entry.Synced file) }
{
    if failing {
        return Entry::Quiet;
    }
    Entry::Synced { file }
}
