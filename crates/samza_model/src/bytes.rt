// A byte string of its own memory.
ghost use Rattle.std.specs.Prelude.{◌≡◌, IfOk, length, nat_eq};
ghost use Rattle.std.specs.Ordering.{as_partial_cmp, nat_cmp};
ghost use Rattle.std.specs.Cmp.{partial_order_from_own_ties};
ghost use Rattle.std.specs.Cmp.Lexicographic.{pointwise, slice_cmp};
ghost use Rattle.std.specs.Cmp.Rules.{comparing};
ghost use Rattle.std.proofs.Common.{rules};

use crate::{NoMemory, Plain};
use std::alloc::Global;
use std::cmp::Ordering;
use std::marker::Model;

/// A byte string, ordered by its bytes. Contracts see the list of them.
#[derive(Debug, Drop)]
pub struct Bin {
    bytes: Vec<u8>,
}

impl Model for Bin {
    ghost use Rattle.std.specs.Prelude.{List, ℕ};

    ghost Value = { List ℕ };

    ghost view = { λ b. b.bytes.items };
}

impl Bin {
    /// A copy of the bytes.
    pub fn of(alloc: Global, bytes: &[u8]) -> Result<Bin, NoMemory>
        ensures { IfOk result (λ b. b ≡ bytes.now) }
    {
        Ok(Bin {
            bytes: Vec::from_slice(alloc, bytes)?,
        })
    }

    /// The byte string in which these bytes stand, with no copy made.
    pub fn from_vec(bytes: Vec<u8>) -> Bin
        ensures { result ≡ bytes.items }
    {
        Bin { bytes }
    }

    pub fn bytes(&self) -> &[u8]
        ensures { result.now ≡ self.now }
    {
        self.bytes.as_slice()
    }
}

impl Plain for Bin {
    fn copy(&self, alloc: Global) -> Result<Self, NoMemory> {
        Bin::of(alloc, self.bytes())
    }

    fn same(&self, other: &Self) -> bool {
        self == other
    }
}

impl PartialEq for Bin {
    ghost eq = { pointwise nat_eq };

    ghost laws = { Prim.search (comparing, rules) };

    fn eq(&self, other: &Self) -> bool {
        self.bytes.as_slice() == other.bytes.as_slice()
    }
}

impl Eq for Bin {
    ghost laws = { Prim.search (comparing, rules) };
}

impl PartialOrd for Bin {
    ghost partial_cmp = { as_partial_cmp (slice_cmp nat_cmp) };

    ghost laws = { partial_order_from_own_ties (Prim.search (comparing, rules)) (Prim.search (comparing, rules)) };

    fn partial_cmp(&self, other: &Self) -> Option<Ordering> {
        Some(self.cmp(other))
    }
}

impl Ord for Bin {
    ghost cmp = { slice_cmp nat_cmp };

    ghost total = { Prim.search (comparing, rules) };

    ghost matches_partial_cmp = { Prim.search (comparing, rules) };

    ghost matches_eq = { Prim.search (comparing, rules) };

    fn cmp(&self, other: &Self) -> Ordering {
        self.bytes.as_slice().cmp(other.bytes.as_slice())
    }
}
