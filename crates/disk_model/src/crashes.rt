// What a crash leaves of the files of a disk in memory: its calls are gone over anew, in the order in which they came.
ghost use Rattle.std.specs.Prelude.{◌≡◌, ◌+◌, ◌<◌, ◌≤◌, ◌^◌, ℕ, length, get_or, set};
ghost use Rattle.disk_model.specs.HeldBytes.{no_bytes};
ghost use Rattle.disk_model.specs.Picks.{torn_write, torn_cut, read_after, torn_after, SameRooms, FitsIn, IsCrashOf};
ghost use Rattle.disk_model.specs.Traces.{bytes_at, file_state, used_by};
ghost use Rattle.disk_model.specs.declared.traces.Entry.TheVariants.{Quiet};

use crate::Pick;
use crate::cells::Cells;
use crate::traces::{Entry, cut_in, place_in, put_in};

/// A write, as far as a crash leaves it.
fn tear_write(cells: &mut Cells, pick: Pick, at: usize, bytes: &[u8])
    requires { at + length bytes.now ≤ cells.old.room }
    ensures { cells.new ≡ record {
      bytes = torn_write pick at bytes.now cells.old.bytes;
      room
          = cells.old.room;
    } }
{
    match pick {
        Pick::Old => {}
        Pick::New => cells.put(at, bytes),
        Pick::Fill(value) => cells.fill(at, bytes.len(), value),
        Pick::Cut(n) => {
            let front = bytes.len().min(n as usize);
            cells.put_padded(at, &bytes[..front]);
        }
    }
}

/// A cut, as far as a crash leaves it.
fn tear_cut(cells: &mut Cells, pick: Pick, size: usize)
    ensures { cells.new ≡ record {
      bytes = torn_cut pick size cells.old.bytes;
      room
          = cells.old.room;
    } }
{
    match pick {
        Pick::Old | Pick::Cut(_) => {}
        Pick::New => cells.cut(size),
        Pick::Fill(value) => {
            let len = cells.bytes().len();
            cells.fill(size.min(len), len.saturating_sub(size), value);
        }
    }
}

/// A write of one of the files, as far as a crash leaves it.
fn tear_write_in(files: &mut Vec<Cells>, file: usize, pick: Pick, at: usize, bytes: &[u8])
    requires there { file < length files.old.items }
    requires reach { at + length bytes.now ≤ (get_or files.old.items file no_bytes).room }
    ensures { files.new.items ≡ set files.old.items file
        (record {
          bytes = torn_write pick at bytes.now (bytes_at files.old.items file);
          room
              = (get_or files.old.items file no_bytes).room;
        }) }
{
    tear_write(&mut files[file], pick, at, bytes);
}

/// A cut of one of the files, if it is there, as far as a crash leaves it.
fn tear_cut_in(files: &mut Vec<Cells>, file: usize, pick: Pick, size: usize)
    ensures { files.new.items ≡ set files.old.items file
        (record {
          bytes = torn_cut pick size (bytes_at files.old.items file);
          room
              = (get_or files.old.items file no_bytes).room;
        }) }
{
    if file < files.len() {
        tear_cut(&mut files[file], pick, size);
    }
}

/// Puts the bytes of one of the other files in the place of this one's, if it is there.
fn copy_in(files: &mut Vec<Cells>, others: &[Cells], file: usize)
    requires { SameRooms files.old.items others.now }
    ensures { files.new.items ≡ set files.old.items file
        (record {
          bytes = bytes_at others.now file;
          room
              = (get_or files.old.items file no_bytes).room;
        }) }
{
    if file < others.len() {
        place_in(files, file, others[file].bytes());
    }
}

/// Puts the bytes of the other files in the place of these.
pub(crate) fn copy_all(files: &mut Vec<Cells>, others: &[Cells])
    requires { SameRooms files.old.items others.now }
    ensures bytes { (f : ℕ) → bytes_at files.new.items f ≡ bytes_at others.now f }
    ensures rooms { SameRooms files.old.items files.new.items }
{
    for i in 0..others.len() {
        copy_in(files, others, i);
    }
}

/// Goes over one call: `files` has what a read gives, and `torn` what a crash leaves.
fn redo(torn: &mut Vec<Cells>, files: &mut Vec<Cells>, entry: Entry, written: &[u8], pick: Pick)
    requires rooms { SameRooms torn.old.items files.old.items }
    requires fits { FitsIn files.old.items entry }
    requires used { used_by entry ≤ length written.now }
    ensures read { (f : ℕ)
        → bytes_at files.new.items f ≡ read_after written.now f entry (bytes_at files.old.items f) }
    ensures torn { (f : ℕ)
        → bytes_at torn.new.items f ≡ torn_after pick written.now f entry
        (bytes_at files.old.items f) (bytes_at torn.old.items f) }
    ensures file_rooms { SameRooms files.old.items files.new.items }
    ensures torn_rooms { SameRooms torn.old.items torn.new.items }
{
    match entry {
        Entry::Quiet => {}
        Entry::Wrote {
            file,
            at,
            from,
            len,
        } => {
            let bytes = &written[from..from + len];
            tear_write_in(torn, file as usize, pick, at, bytes);
            put_in(files, file as usize, at, bytes);
        }
        Entry::Shortened { file, size } => {
            tear_cut_in(torn, file as usize, pick, size);
            cut_in(files, file as usize, size);
        }
        Entry::Synced { file } => copy_in(torn, files.as_slice(), file as usize),
    }
}

/// Goes over the calls, from files as they were at the start.
pub(crate) fn redo_all(
    torn: &mut Vec<Cells>,
    files: &mut Vec<Cells>,
    noted: &[Entry],
    written: &[u8],
    pick: Pick,
)
    requires rooms { SameRooms torn.old.items files.old.items }
    requires rewound { (f : ℕ) → bytes_at files.old.items f ≡ bytes_at torn.old.items f }
    requires fits { (k : ℕ) → FitsIn files.old.items (get_or noted.now k Quiet) }
    requires used { (k : ℕ) → used_by (get_or noted.now k Quiet) ≤ length written.now }
    ensures torn { (f : ℕ)
        → IsCrashOf pick (file_state torn.old.items noted.now written.now f)
        (bytes_at torn.new.items f) }
    ensures file_rooms { SameRooms files.old.items files.new.items }
    ensures torn_rooms { SameRooms torn.old.items torn.new.items }
{
    for i in 0..noted.len() {
        redo(torn, files, noted[i], written, pick);
    }
}
