// Copies of plain values, and the test whether two are one.
ghost use Rattle.std.specs.Prelude.{◌≡◌, ◌↔◌, IfOk, IsTrue};

use crate::NoMemory;
use std::alloc::Global;

/// A value that contracts see as plain data, so that a copy equals what it copies.
pub trait Plain: Drop {
    /// A value equal to this one, with memory of its own.
    fn copy(&self, alloc: Global) -> Result<Self, NoMemory>
        ensures { IfOk result (λ made. made ≡ self.now) };

    /// Whether the two values are equal.
    fn same(&self, other: &Self) -> bool
        ensures { IsTrue result ↔ (self.now ≡ other.now) };
}

impl<T: Plain> Plain for Option<T> {
    fn copy(&self, alloc: Global) -> Result<Self, NoMemory> {
        match self {
            None => Ok(None),
            Some(value) => Ok(Some(value.copy(alloc)?)),
        }
    }

    fn same(&self, other: &Self) -> bool {
        match (self, other) {
            (None, None) => true,
            (Some(a), Some(b)) => a.same(b),
            _ => false,
        }
    }
}

impl Plain for u64 {
    fn copy(&self, _alloc: Global) -> Result<Self, NoMemory> {
        Ok(*self)
    }

    fn same(&self, other: &Self) -> bool {
        *self == *other
    }
}
