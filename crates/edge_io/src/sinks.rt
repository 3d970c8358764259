// What takes a command's texts.
ghost use Rattle.std.specs.Prelude.{◌≡◌, ◌++◌, ◌≤◌, ℕ, List, OnOk, OnErr};
ghost use Rattle.samza_model.specs.Counters.{Rose};
ghost use Rattle.edge_io.specs.Received.{TookPart};

use std::error::Error;
use std::fmt;

/// A write failed, and the sink's count of faults rose.
#[derive(Clone, Copy, Debug, PartialEq, Eq)]
pub enum SinkFault {
    Failed,
}

impl fmt::Display for SinkFault {
    fn fmt<W: fmt::Write>(&self, f: &mut fmt::Formatter<W>) -> fmt::Result {
        write!(f, "sink failed")
    }
}

impl Error for SinkFault {}

/// Takes bytes, one write after another. No call takes memory.
pub trait Sink {
    /// Holds where the sink tells its bytes. What is said of bytes is said where this holds.
    ghost tells: { Type 0 };

    /// The bytes that it took so far.
    ghost received: { Self → List ℕ };

    ghost fault_count: { Self → ℕ };

    /// Writes all bytes. After `Failed` some of them, from their front on, may have been written.
    fn write(&mut self, bytes: &[u8]) -> Result<(), SinkFault>
        ensures written { OnOk result (tells → received self.new ≡ received self.old ++ bytes.now) }
        ensures part { OnErr result (tells
            → TookPart bytes.now (received self.old) (received self.new)) }
        ensures cause { OnErr result (Rose (fault_count self.old) (fault_count self.new)) }
        ensures later { fault_count self.old ≤ fault_count self.new };

    /// The number of faults so far.
    fn faults(&self) -> u64
        ensures { result ≡ fault_count self.now };
}
