// The bytes of one file in memory, with room that was taken when they were made.
ghost use Rattle.std.specs.Prelude.{◌≡◌, ◌+◌, ◌-◌, ◌<◌, ◌≤◌, ◌⊎◌, ◌^◌, ℕ, IfOk, [], ◌++◌, length, take, replicate, max, get_or, vec_capacity};
ghost use Rattle.disk_model.specs.Cells.{put_at, padded, filled, put_padded};

use samza_model::NoMemory;
use std::alloc::Global;
use std::marker::Model;

/// Bytes and the greatest number of them. No call but the making takes memory.
#[derive(Drop)]
pub(crate) struct Cells {
    bytes: Vec<u8>,
    room: usize,
}

impl Model for Cells {
    ghost use Rattle.std.specs.Prelude.{◌≤◌, length, vec_capacity};
    ghost use Rattle.disk_model.specs.HeldBytes.{HeldBytes};

    ghost Value = { HeldBytes };

    ghost view = { λ c. record { bytes = c.bytes.items; room = c.room } };

    ghost invariant = { λ c. (c.room ≤ vec_capacity c.bytes) × (length c.bytes.items ≤ c.room) };
}

impl Cells {
    /// No bytes yet, and this room.
    pub(crate) fn new(alloc: Global, room: usize) -> Result<Cells, NoMemory>
        ensures { IfOk result (λ c. c ≡ record { bytes = []; room = room }) }
    {
        Ok(Cells {
            bytes: Vec::with_capacity(alloc, room)?,
            room,
        })
    }

    pub(crate) fn bytes(&self) -> &[u8]
        ensures bytes { result.now ≡ self.now.bytes }
        ensures fits { length self.now.bytes ≤ self.now.room }
    {
        let _ = &self.room;
        self.bytes.as_slice()
    }

    /// Writes over what is there, and behind it.
    pub(crate) fn put(&mut self, at: usize, bytes: &[u8])
        requires { at + length bytes.now ≤ self.old.room }
        ensures { self.new ≡ record {
          bytes = put_at at bytes.now self.old.bytes;
          room
              = self.old.room;
        } }
    {
        put_into(&mut self.bytes, at, bytes);
    }

    /// Leaves at most this many bytes.
    pub(crate) fn cut(&mut self, size: usize)
        ensures { self.new ≡ record { bytes = take size self.old.bytes; room = self.old.room } }
    {
        self.bytes.truncate(size);
    }

    /// Writes this value over so many bytes from a place on, and behind what is there.
    pub(crate) fn fill(&mut self, from: usize, count: usize, value: u8)
        requires { from + count ≤ self.old.room }
        ensures { self.new ≡ record {
          bytes = filled from count value self.old.bytes;
          room
              = self.old.room;
        } }
    {
        let _ = &self.room;
        pad(&mut self.bytes, from + count, value);
        self.bytes[from..from + count].fill(value);
    }

    /// Writes over what is there, and behind it, with zeros in a gap.
    pub(crate) fn put_padded(&mut self, at: usize, bytes: &[u8])
        requires { at + length bytes.now ≤ self.old.room }
        ensures { self.new ≡ record {
          bytes = put_padded at bytes.now self.old.bytes;
          room
              = self.old.room;
        } }
    {
        if bytes.is_empty() {
            return;
        }
        pad(&mut self.bytes, at, 0);
        put_into(&mut self.bytes, at, bytes);
    }
}

/// Adds a value behind the bytes up to a size, where the capacity suffices.
fn pad(cells: &mut Vec<u8>, size: usize, value: u8)
    requires { size ≤ vec_capacity cells.old }
    ensures items { cells.new.items ≡ padded size value cells.old.items }
    ensures capacity { vec_capacity cells.old ≤ vec_capacity cells.new }
{
    let more = size.saturating_sub(cells.len());
    for _i in 0..more {
        let _ = cells.push(value);
    }
}

/// Writes over what is there, and behind it, where the capacity suffices.
fn put_into(cells: &mut Vec<u8>, at: usize, bytes: &[u8])
    requires { at + length bytes.now ≤ vec_capacity cells.old }
    ensures items { cells.new.items ≡ put_at at bytes.now cells.old.items }
    ensures capacity { vec_capacity cells.old ≤ vec_capacity cells.new }
{
    let size = cells.len();
    if at >= size {
        let _ = cells.extend_from_slice(bytes);
        return;
    }
    if bytes.len() <= size - at {
        cells[at..at + bytes.len()].copy_from_slice(bytes);
        return;
    }
    cells.truncate(at);
    let _ = cells.extend_from_slice(bytes);
}
