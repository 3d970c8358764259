// The files of a disk in memory, with a record of the calls that changed them.
ghost use Rattle.std.specs.Prelude.{◌≡◌, ◌+◌, ◌-◌, ◌<◌, ◌≤◌, ◌^◌, ℕ, List, IfOk, [], ◌∷◌, ◌++◌, length, take, drop, get_or, vec_capacity, replicate, set};
ghost use Rattle.disk_model.specs.Cells.{put_at};
ghost use Rattle.disk_model.specs.HeldBytes.{no_bytes};
ghost use Rattle.disk_model.specs.Traces.{bytes_at, file_state, used_by, reach_of, file_end, without};
ghost use Rattle.disk_model.specs.declared.traces.Entry.{Entry};
ghost use Rattle.disk_model.specs.declared.traces.Entry.TheVariants.{Quiet};

use crate::Pick;
use crate::cells::Cells;
use crate::crashes::{copy_all, redo_all};
use samza_model::NoMemory;
use std::alloc::Global;

/// What one call did to the files. The bytes of a write are those of the record from a place on.
#[derive(Clone, Copy, Debug)]
pub(crate) enum Entry {
    Quiet,
    Wrote {
        file: u32,
        at: usize,
        from: usize,
        len: usize,
    },
    Shortened {
        file: u32,
        size: usize,
    },
    Synced {
        file: u32,
    },
}

/// Files by number, with a record of the calls: one entry a call, up to a limit.
#[derive(Drop)]
pub(crate) struct Trace {
    pub(crate) start: Vec<Cells>,
    pub(crate) files: Vec<Cells>,
    pub(crate) noted: Vec<Entry>,
    pub(crate) written: Vec<u8>,
    pub(crate) room: usize,
    pub(crate) limit: usize,
    /// One more than the greatest number of a file that was written.
    pub(crate) there: usize,
    ghost kept: { (f : ℕ) → bytes_at files.items f ≡ (file_state start.items noted.items written.items f).now },
    ghost used: { (k : ℕ) → used_by (get_or noted.items k Quiet) ≤ length written.items },
    ghost reach: { (k : ℕ) → reach_of (get_or noted.items k Quiet) ≤ room },
    ghost start_rooms: { (k : ℕ) → k < length start.items → (get_or start.items k no_bytes).room ≡ room },
    ghost file_rooms: { (k : ℕ) → k < length files.items → (get_or files.items k no_bytes).room ≡ room },
    ghost even: { length start.items ≡ length files.items },
    ghost within: { length noted.items ≤ limit },
    ghost noted_room: { limit ≤ vec_capacity noted },
    ghost written_room: { room ≤ vec_capacity written },
    ghost unwritten: { (f : ℕ) → there ≤ f → bytes_at files.items f ≡ [] },
    ghost unstarted: { (f : ℕ) → there ≤ f → bytes_at start.items f ≡ [] },
    ghost known: { (k : ℕ) → file_end (get_or noted.items k Quiet) ≤ there },
    ghost few: { there ≤ length files.items },
}

impl Trace {
    ghost use Rattle.std.specs.Prelude.{◌≡◌, ◌+◌, ◌-◌, ◌<◌, ◌≤◌, ◌^◌, ℕ, List, IfOk, IsTrue, ◌↔◌, [], ◌∷◌, ◌++◌, length, take, drop, get_or, min, max, if◌then◌else◌, true, false};
    ghost use Rattle.disk_model.specs.Capacities.{with_used};
    ghost use Rattle.disk_model.specs.FileStates.{after, at_rest, with_written, with_cut};
    ghost use Rattle.disk_model.specs.Picks.{IsCrashOf};
    ghost use Rattle.disk_model.specs.Traces.{is_still};
    ghost use Rattle.disk_model.specs.TraceWords.{capacity_of, calls_noted, now_of, then_of, bytes_of, has_room_in, AtFile};

    /// Empty files, and all the memory that the calls will need.
    pub(crate) fn new(
        alloc: Global,
        files: u32,
        room: usize,
        calls: usize,
    ) -> Result<Trace, NoMemory>
        ensures count { IfOk result (λ t. calls_noted t ≡ 0) }
        ensures limit { IfOk result (λ t. t.limit ≡ calls) }
        ensures empty { IfOk result (λ t. (f : ℕ) → now_of t f ≡ at_rest []) }
        ensures there { IfOk result (λ t. t.there ≡ 0) }
        ensures room { IfOk result (λ t. t.room ≡ room) }
        ensures used { IfOk result (λ t. length t.written.items ≡ 0) }
        ensures capacity { IfOk result
            (λ t. capacity_of t ≡ record { files = files; room = room; calls = calls; used = 0 }) }
        ensures files { IfOk result (λ t. length t.files.items ≡ files) }
    {
        Ok(Trace {
            start: empty_files(alloc, files, room)?,
            files: empty_files(alloc, files, room)?,
            noted: Vec::with_capacity(alloc, calls)?,
            written: Vec::with_capacity(alloc, room)?,
            room,
            limit: calls,
            there: 0,
        })
    }

    /// A file's bytes. One that isn't there has none.
    pub(crate) fn bytes(&self, file: u32) -> &[u8]
        ensures bytes { result.now ≡ bytes_of self.now file }
    {
        match self.files.get(file as usize) {
            Some(cells) => cells.bytes(),
            None => &[],
        }
    }

    fn is_full(&self) -> bool
        ensures { IsTrue result ↔ (self.now.limit ≤ calls_noted self.now) }
    {
        self.noted.len() >= self.limit
    }

    /// Notes a call that changes no bytes. Where the record is full it is false, and nothing changes.
    pub(crate) fn note(&mut self, entry: Entry) -> bool
        requires { is_still entry ≡ true }
        ensures full { self.old.limit ≤ calls_noted self.old → result ≡ false }
        ensures open { calls_noted self.old < self.old.limit → result ≡ true }
        ensures limit { self.new.limit ≡ self.old.limit }
        ensures count { calls_noted self.new ≡ min (calls_noted self.old + 1) self.old.limit }
        ensures past { (j f : ℕ) → (calls_noted self.old < self.old.limit → j ≤ calls_noted self.old)
            → then_of self.new j f ≡ then_of self.old j f }
        ensures noted { result ≡ true → (f : ℕ)
            → now_of self.new f ≡ after [] f entry (now_of self.old f) }
        ensures spared { result ≡ false → (f : ℕ) → now_of self.new f ≡ now_of self.old f }
        ensures bytes { (f : ℕ) → bytes_of self.new f ≡ bytes_of self.old f }
        ensures capacity { capacity_of self.new ≡ capacity_of self.old }
        ensures there { self.new.there ≡ self.old.there }
    {
        if self.is_full() {
            return false;
        }
        add_entry(&mut self.noted, entry);
        true
    }

    fn has_room(&self, file: u32, at: usize, len: usize) -> bool
        ensures { result ≡ has_room_in self.now file at len }
    {
        (file as usize) < self.files.len()
            && at <= self.room
            && len <= self.room - at
            && self.written.len() <= self.room
            && len <= self.room - self.written.len()
    }

    /// Writes bytes, if there is room. If not, or where the record is full, it is false, and no bytes change.
    pub(crate) fn write(&mut self, file: u32, at: usize, bytes: &[u8]) -> bool
        ensures full { self.old.limit ≤ calls_noted self.old → result ≡ false }
        ensures room { calls_noted self.old < self.old.limit
            → result ≡ has_room_in self.old file at (length bytes.now) }
        ensures limit { self.new.limit ≡ self.old.limit }
        ensures count { calls_noted self.new ≡ min (calls_noted self.old + 1) self.old.limit }
        ensures past { (j f : ℕ) → (calls_noted self.old < self.old.limit → j ≤ calls_noted self.old)
            → then_of self.new j f ≡ then_of self.old j f }
        ensures made { result ≡ true
            → AtFile file (with_written at bytes.now) (now_of self.old) (now_of self.new) }
        ensures capacity { capacity_of self.new
            ≡ (if result then with_used (length bytes.now) (capacity_of self.old) else capacity_of
            self.old) }
        ensures there { self.new.there
            ≡ (if result then max self.old.there (file + 1) else self.old.there) }
        ensures spared { result ≡ false → (f : ℕ) → now_of self.new f ≡ now_of self.old f }
    {
        if self.is_full() || !self.has_room(file, at, bytes.len()) {
            self.note(Entry::Quiet);
            return false;
        }
        self.put(file, at, bytes);
        true
    }

    fn put(&mut self, file: u32, at: usize, bytes: &[u8])
        requires open { calls_noted self.old < self.old.limit }
        requires there { file < length self.old.files.items }
        requires reach { at + length bytes.now ≤ self.old.room }
        requires used { length self.old.written.items + length bytes.now ≤ self.old.room }
        ensures limit { self.new.limit ≡ self.old.limit }
        ensures count { calls_noted self.new ≡ calls_noted self.old + 1 }
        ensures past { (j f : ℕ) → j ≤ calls_noted self.old
            → then_of self.new j f ≡ then_of self.old j f }
        ensures capacity { capacity_of self.new ≡ with_used (length bytes.now)
            (capacity_of self.old) }
        ensures known { self.new.there ≡ max self.old.there (file + 1) }
        ensures made { AtFile file (with_written at bytes.now) (now_of self.old) (now_of self.new) }
    {
        let from = self.written.len();
        add_bytes(&mut self.written, bytes);
        add_entry(
            &mut self.noted,
            Entry::Wrote {
                file,
                at,
                from,
                len: bytes.len(),
            },
        );
        put_in(&mut self.files, file as usize, at, bytes);
        self.there = self.there.max(file as usize + 1);
    }

    /// Cuts a file to a size. Where the record is full it is false, and nothing changes.
    pub(crate) fn cut(&mut self, file: u32, size: usize) -> bool
        ensures full { self.old.limit ≤ calls_noted self.old → result ≡ false }
        ensures open { calls_noted self.old < self.old.limit → result ≡ true }
        ensures limit { self.new.limit ≡ self.old.limit }
        ensures count { calls_noted self.new ≡ min (calls_noted self.old + 1) self.old.limit }
        ensures past { (j f : ℕ) → (calls_noted self.old < self.old.limit → j ≤ calls_noted self.old)
            → then_of self.new j f ≡ then_of self.old j f }
        ensures made { result ≡ true
            → AtFile file (with_cut size) (now_of self.old) (now_of self.new) }
        ensures capacity { capacity_of self.new ≡ capacity_of self.old }
        ensures there { self.new.there ≡ self.old.there }
        ensures spared { result ≡ false → (f : ℕ) → now_of self.new f ≡ now_of self.old f }
    {
        if self.is_full() {
            return false;
        }
        add_entry(&mut self.noted, Entry::Shortened { file, size });
        cut_in(&mut self.files, file as usize, size);
        true
    }

    /// Puts bytes in the place of a file, as if they had been there from the start.
    pub(crate) fn place(&mut self, file: usize, bytes: &[u8])
        requires there { file < length self.old.files.items }
        requires fits { length bytes.now ≤ self.old.room }
        ensures count { calls_noted self.new ≡ calls_noted self.old }
        ensures limit { self.new.limit ≡ self.old.limit }
        ensures placed { AtFile file (λ _. at_rest bytes.now) (now_of self.old) (now_of self.new) }
        ensures capacity { capacity_of self.new ≡ capacity_of self.old }
        ensures known { self.new.there ≡ max self.old.there (file + 1) }
    {
        forget_all(&mut self.noted, file);
        place_in(&mut self.start, file, bytes);
        place_in(&mut self.files, file, bytes);
        self.there = self.there.max(file + 1);
    }

    /// Leaves what a crash leaves, as if it had been there from the start, and drops the record.
    pub(crate) fn crash(&mut self, pick: Pick)
        ensures torn { (f : ℕ) → IsCrashOf pick (now_of self.old f) (bytes_of self.new f) }
        ensures rest { (f : ℕ) → now_of self.new f ≡ at_rest (bytes_of self.new f) }
        ensures count { calls_noted self.new ≡ 0 }
        ensures limit { self.new.limit ≡ self.old.limit }
        ensures room { self.new.room ≡ self.old.room }
        ensures files { length self.new.files.items ≡ length self.old.files.items }
        ensures used { length self.new.written.items ≡ 0 }
        ensures there { self.new.there ≡ self.old.there }
    {
        copy_all(&mut self.files, self.start.as_slice());
        redo_all(
            &mut self.start,
            &mut self.files,
            self.noted.as_slice(),
            self.written.as_slice(),
            pick,
        );
        copy_all(&mut self.files, self.start.as_slice());
        self.noted.clear();
        self.written.clear();
    }
}

/// Takes what was noted of a file for nothing.
fn forget_all(noted: &mut Vec<Entry>, file: usize)
    ensures each { (k : ℕ)
        → get_or noted.new.items k Quiet ≡ without file (get_or noted.old.items k Quiet) }
    ensures len { length noted.new.items ≡ length noted.old.items }
    ensures capacity { vec_capacity noted.new ≡ vec_capacity noted.old }
{
    forget(noted.as_mut_slice(), file);
}

fn forget(noted: &mut [Entry], file: usize)
    ensures { (k : ℕ) → get_or noted.new k Quiet ≡ without file (get_or noted.old k Quiet) }
{
    for i in 0..noted.len() {
        let entry = noted[i];
        noted[i] = without_file(entry, file);
    }
}

fn without_file(entry: Entry, file: usize) -> Entry
    ensures { result ≡ without file entry }
{
    let of = match entry {
        Entry::Quiet => return Entry::Quiet,
        Entry::Wrote { file, .. } => file,
        Entry::Shortened { file, .. } => file,
        Entry::Synced { file } => file,
    };
    if of as usize == file {
        return Entry::Quiet;
    }
    entry
}

/// Puts bytes in the place of one of the files.
pub(crate) fn place_in(files: &mut Vec<Cells>, file: usize, bytes: &[u8])
    requires there { file < length files.old.items }
    requires fits { length bytes.now ≤ (get_or files.old.items file no_bytes).room }
    ensures { files.new.items ≡ set files.old.items file
        (record { bytes = bytes.now; room = (get_or files.old.items file no_bytes).room }) }
{
    let cells = &mut files[file];
    cells.cut(0);
    cells.put(0, bytes);
}

/// So many files without bytes, each with this room.
fn empty_files(alloc: Global, count: u32, room: usize) -> Result<Vec<Cells>, NoMemory>
    ensures { IfOk result (λ v. v.items ≡ replicate count (record { bytes = []; room = room })) }
{
    let mut files = Vec::with_capacity(alloc, count as usize)?;
    for _i in 0..count {
        files.push(Cells::new(alloc, room)?)?;
    }
    Ok(files)
}

/// Adds an entry where the capacity suffices.
fn add_entry(noted: &mut Vec<Entry>, entry: Entry)
    requires { length noted.old.items < vec_capacity noted.old }
    ensures items { noted.new.items ≡ noted.old.items ++ entry ∷ [] }
    ensures capacity { vec_capacity noted.old ≤ vec_capacity noted.new }
{
    let _ = noted.push(entry);
}

/// Adds bytes where the capacity suffices.
fn add_bytes(written: &mut Vec<u8>, bytes: &[u8])
    requires { length written.old.items + length bytes.now ≤ vec_capacity written.old }
    ensures items { written.new.items ≡ written.old.items ++ bytes.now }
    ensures capacity { vec_capacity written.old ≤ vec_capacity written.new }
{
    let _ = written.extend_from_slice(bytes);
}

/// Writes bytes into one of the files.
pub(crate) fn put_in(files: &mut Vec<Cells>, file: usize, at: usize, bytes: &[u8])
    requires there { file < length files.old.items }
    requires reach { at + length bytes.now ≤ (get_or files.old.items file no_bytes).room }
    ensures { files.new.items ≡ set files.old.items file
        (record {
          bytes = put_at at bytes.now (bytes_at files.old.items file);
          room
              = (get_or files.old.items file no_bytes).room;
        }) }
{
    let cells = &mut files[file];
    cells.put(at, bytes);
}

/// Cuts one of the files, if it is there.
pub(crate) fn cut_in(files: &mut Vec<Cells>, file: usize, size: usize)
    ensures { files.new.items ≡ set files.old.items file
        (record {
          bytes = take size (bytes_at files.old.items file);
          room
              = (get_or files.old.items file no_bytes).room;
        }) }
{
    if file < files.len() {
        let cells = &mut files[file];
        cells.cut(size);
    }
}
