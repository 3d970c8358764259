// A sink over a stream of std.
ghost use Rattle.std.specs.Prelude.{◌≡◌, ◌≤◌, [], OnOk, OnErr};
ghost use Rattle.std.specs.Io.KnownBytes.{Appends};
ghost use Rattle.samza_model.specs.Counters.{Rose};
ghost use Rattle.edge_io.specs.StdSink.{std_faults, std_stream};

use crate::{Sink, SinkFault};
use std::io::Write;

/// A sink over a stream of std, as standard output or standard error. It tells no bytes.
#[derive(Drop)]
pub struct StdSink<W: Write + Drop> {
    stream: W,
    faults: u64,
}

impl<W: Write + Drop> StdSink<W> {
    /// A sink that has written nothing yet, over a stream such as the runtime's `stdout()` or `stderr()`.
    pub fn new(stream: W) -> StdSink<W>
        ensures faults { std_faults result ≡ 0 }
        ensures stream { std_stream result ≡ stream }
    {
        StdSink { stream, faults: 0 }
    }
}

impl<W: Write + Drop> Sink for StdSink<W> {
    ghost tells = { ⊥ };

    ghost received = { λ s. [] };

    ghost fault_count = { std_faults };

    /// Writes all bytes to the stream: behind those that it held, where it says what it holds.
    fn write(&mut self, bytes: &[u8]) -> Result<(), SinkFault>
        ensures cause { OnErr result (Rose (std_faults self.old) (std_faults self.new)) }
        ensures later { std_faults self.old ≤ std_faults self.new }
        ensures stream { OnOk result
            (Appends (W.contents (std_stream self.old)) (W.contents (std_stream self.new))
            bytes.now) }
    {
        if self.stream.write_all(bytes).is_ok() && self.stream.flush().is_ok() {
            return Ok(());
        }
        self.faults = self.faults.saturating_add(1);
        Err(SinkFault::Failed)
    }

    fn faults(&self) -> u64 {
        self.faults
    }
}
