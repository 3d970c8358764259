// A sink in memory, which may be told which writes fail.
ghost use Rattle.std.specs.Prelude.{◌≤◌, vec_capacity, vec_len};

use crate::{Sink, SinkFault};
use samza_model::NoMemory;
use std::alloc::Global;

/// Bytes in memory. It takes all its memory when it is made.
#[derive(Drop)]
pub struct MemSink {
    bytes: Vec<u8>,
    room: usize,
    writes: u64,
    fail_at: Vec<u64>,
    faults: u64,
    ghost reserved: { room ≤ vec_capacity bytes },
    ghost fits: { vec_len bytes ≤ room },
}

impl MemSink {
    ghost use Rattle.std.specs.Prelude.{◌≡◌, ◌++◌, [], IfOk, take, length, nat_le, ◌+◌, ◌-◌};
    ghost use Rattle.edge_io.specs.MemorySink.{sink_received, sink_writes, sink_room, sink_fail_at};

    /// A sink that has taken nothing yet, and takes at most `room` bytes in all. The writes with the numbers `fail_at`
    /// fail, counted from 0, and take nothing. A write past the room fails too, and takes what fits.
    pub fn new(alloc: Global, room: u64, fail_at: Vec<u64>) -> Result<MemSink, NoMemory>
        ensures received { IfOk result (λ s. ⟦<MemSink as Sink>⟧.received s ≡ []) }
        ensures faults { IfOk result (λ s. ⟦<MemSink as Sink>⟧.fault_count s ≡ 0) }
        ensures writes { IfOk result (λ s. sink_writes s ≡ 0) }
        ensures room { IfOk result (λ s. sink_room s ≡ room) }
        ensures fails { IfOk result (λ s. sink_fail_at s ≡ fail_at.items) }
    {
        let room = room as usize;
        Ok(MemSink {
            bytes: Vec::with_capacity(alloc, room)?,
            room,
            writes: 0,
            fail_at,
            faults: 0,
        })
    }

    /// What it took so far.
    pub fn bytes(&self) -> &[u8]
        ensures { result.now ≡ ⟦<MemSink as Sink>⟧.received self.now }
    {
        self.bytes.as_slice()
    }

    /// Takes what fits. It is true if all of the bytes did.
    fn take(&mut self, bytes: &[u8]) -> bool
        ensures received { sink_received self.new ≡ sink_received self.old
            ++ take (sink_room self.old - length (sink_received self.old)) bytes.now }
        ensures all { result ≡ nat_le (length (sink_received self.old) + length bytes.now)
            (sink_room self.old) }
        ensures writes { self.new.writes ≡ self.old.writes }
        ensures faults { self.new.faults ≡ self.old.faults }
        ensures room { self.new.room ≡ self.old.room }
        ensures fails { self.new.fail_at ≡ self.old.fail_at }
    {
        let space = self.room - self.bytes.len();
        let count = space.min(bytes.len());
        let _ = self.bytes.extend_from_slice(&bytes[..count]);
        count == bytes.len()
    }
}

impl Sink for MemSink {
    ghost use Rattle.std.specs.Prelude.{◌≡◌, ◌++◌, ◌≤◌, OnOk, OnErr, length, is_err};
    ghost use Rattle.samza_model.specs.Counters.{next_number, Rose};
    ghost use Rattle.edge_io.specs.MemorySink.{sink_received, sink_faults, sink_writes, sink_room, sink_fail_at, fails_next, taken_next};
    ghost use Rattle.edge_io.specs.Received.{TookPart};

    ghost tells = { Unit {0} };

    ghost received = { sink_received };

    ghost fault_count = { sink_faults };

    fn write(&mut self, bytes: &[u8]) -> Result<(), SinkFault>
        ensures written { OnOk result (sink_received self.new ≡ sink_received self.old
            ++ bytes.now) }
        ensures part { OnErr result
            (TookPart bytes.now (sink_received self.old) (sink_received self.new)) }
        ensures cause { OnErr result (Rose (sink_faults self.old) (sink_faults self.new)) }
        ensures later { sink_faults self.old ≤ sink_faults self.new }
        ensures fails { is_err result ≡ fails_next self.old (length bytes.now) }
        ensures took { sink_received self.new ≡ sink_received self.old
            ++ taken_next self.old bytes.now }
        ensures writes { sink_writes self.new ≡ next_number (sink_writes self.old) }
        ensures room { sink_room self.new ≡ sink_room self.old }
        ensures told { sink_fail_at self.new ≡ sink_fail_at self.old }
    {
        let told = self.fail_at.contains(&self.writes);
        self.writes = self.writes.saturating_add(1);
        if !told && self.take(bytes) {
            return Ok(());
        }
        self.faults = self.faults.saturating_add(1);
        Err(SinkFault::Failed)
    }

    fn faults(&self) -> u64 {
        self.faults
    }
}
