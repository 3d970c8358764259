// A copy of one file, for reading.
use crate::memory_steps::read_from;
use crate::tallies::Tally;
use crate::{DiskFault, DiskName, Shelf};

/// One file's bytes in memory, which may be told which calls fail.
#[derive(Drop)]
pub struct MemShelf {
    pub(crate) name: DiskName,
    pub(crate) file: u32,
    pub(crate) bytes: Vec<u8>,
    pub(crate) tally: Tally,
}

impl Shelf for MemShelf {
    ghost use Rattle.std.specs.Prelude.{◌≡◌, ◌+◌, ◌^◌, ◌≤◌, ◌||◌, length, take, drop, nat_le, not, is_err, IfOk, OnOk, OnErr};
    ghost use Rattle.samza_model.specs.Counters.{next_number, Rose};
    ghost use Rattle.disk_model.specs.MemoryShelf.{shelf_name, shelf_file, shelf_bytes, shelf_faults, shelf_calls, shelf_fails, SameShelfTold};

    ghost tells = { Unit {0} };

    ghost name = { shelf_name };

    ghost file = { shelf_file };

    ghost bytes = { shelf_bytes };

    ghost fault_count = { shelf_faults };

    fn size(&mut self) -> Result<u64, DiskFault>
        ensures size { IfOk result (λ n. n ≡ length (shelf_bytes self.old)) }
        ensures bound { IfOk result (λ n. n ≤ 2 ^ 48) }
        ensures bytes { shelf_bytes self.new ≡ shelf_bytes self.old }
        ensures cause { OnErr result (Rose (shelf_faults self.old) (shelf_faults self.new)) }
        ensures later { shelf_faults self.old ≤ shelf_faults self.new }
        ensures name { shelf_name self.new ≡ shelf_name self.old }
        ensures file { shelf_file self.new ≡ shelf_file self.old }
        ensures called { shelf_calls self.new ≡ next_number (shelf_calls self.old) }
        ensures told { SameShelfTold self.old self.new }
        ensures fails { is_err result
            ≡ (shelf_fails self.old (shelf_calls self.old) || not
            (nat_le (length (shelf_bytes self.old)) (2 ^ 48))) }
    {
        let failing = self.tally.begin();
        let size = self.bytes.len() as u64;
        self.tally.answer(failing, size <= 1 << 48, size)
    }

    fn read_at(&mut self, at: u64, into: &mut [u8]) -> Result<(), DiskFault>
        requires { at + length into.old ≤ length (shelf_bytes self.old) }
        ensures read { OnOk result
            (into.new ≡ take (length into.old) (drop at (shelf_bytes self.old))) }
        ensures bytes { shelf_bytes self.new ≡ shelf_bytes self.old }
        ensures cause { OnErr result (Rose (shelf_faults self.old) (shelf_faults self.new)) }
        ensures later { shelf_faults self.old ≤ shelf_faults self.new }
        ensures name { shelf_name self.new ≡ shelf_name self.old }
        ensures file { shelf_file self.new ≡ shelf_file self.old }
        ensures called { shelf_calls self.new ≡ next_number (shelf_calls self.old) }
        ensures told { SameShelfTold self.old self.new }
        ensures fails { is_err result ≡ shelf_fails self.old (shelf_calls self.old) }
    {
        let failing = self.tally.begin();
        read_from(self.bytes.as_slice(), at as usize, into);
        self.tally.answer(failing, true, ())
    }

    fn faults(&self) -> u64 {
        self.tally.faults
    }
}
