// One file, for reading.
ghost use Rattle.std.specs.Prelude.{◌≡◌, ◌+◌, ◌^◌, ◌≤◌, ℕ, List, length, take, drop, IfOk, OnOk, OnErr};
ghost use Rattle.samza_model.specs.Counters.{Rose};
ghost use Rattle.disk_model.specs.declared.names.DiskName.{DiskName};

use crate::DiskFault;

/// One file, for reading, which doesn't change while it is out. No call takes memory.
pub trait Shelf: Send + Drop {
    /// Holds where the shelf tells its bytes.
    ghost tells: { Type 0 };

    /// The disk whose file it is.
    ghost name: { Self → DiskName };

    ghost file: { Self → ℕ };

    ghost bytes: { Self → List ℕ };

    ghost fault_count: { Self → ℕ };

    /// The file's size in bytes, at most 2^48.
    fn size(&mut self) -> Result<u64, DiskFault>
        ensures size { IfOk result (λ n. tells → n ≡ length (bytes self.old)) }
        ensures bound { IfOk result (λ n. n ≤ 2 ^ 48) }
        ensures bytes { tells → bytes self.new ≡ bytes self.old }
        ensures cause { OnErr result (Rose (fault_count self.old) (fault_count self.new)) }
        ensures later { fault_count self.old ≤ fault_count self.new }
        ensures name { name self.new ≡ name self.old }
        ensures file { file self.new ≡ file self.old };

    /// Fills the buffer from this place of the file.
    fn read_at(&mut self, at: u64, into: &mut [u8]) -> Result<(), DiskFault>
        requires { tells → at + length into.old ≤ length (bytes self.old) }
        ensures read { OnOk result (tells
            → into.new ≡ take (length into.old) (drop at (bytes self.old))) }
        ensures bytes { tells → bytes self.new ≡ bytes self.old }
        ensures cause { OnErr result (Rose (fault_count self.old) (fault_count self.new)) }
        ensures later { fault_count self.old ≤ fault_count self.new }
        ensures name { name self.new ≡ name self.old }
        ensures file { file self.new ≡ file self.old };

    /// The number of faults so far.
    fn faults(&self) -> u64
        ensures { result ≡ fault_count self.now };
}
