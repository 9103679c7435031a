//! The numbers that a fault names.

ghost use Rattle.std.specs.Prelude.{◌≡◌, ◌≤◌, take};

use std::marker::Model;

/// The most numbers that a fault names.
const MOST: usize = 3;

/// The numbers that a fault names, in order. It is seen as their list.
#[derive(Debug, Drop)]
pub struct FaultFields {
    numbers: [u64; MOST],
    count: usize,
}

impl Model for FaultFields {
    ghost use Rattle.std.specs.Prelude.{ℕ, List, ◌≤◌, take};

    ghost Value = { List ℕ };

    ghost view = { λ s. take s.count s.numbers };

    ghost invariant = { λ s. s.count ≤ 3 };
}

impl FaultFields {
    /// The first so many of these.
    pub(crate) fn first(count: usize, numbers: [u64; MOST]) -> Self
        requires { count ≤ MOST }
        ensures { result ≡ take count numbers }
    {
        FaultFields { numbers, count }
    }

    /// All of them.
    pub fn as_slice(&self) -> &[u64]
        ensures { result.now ≡ self.now }
    {
        &self.numbers[..self.count]
    }
}
