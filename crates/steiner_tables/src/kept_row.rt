//! The kept numbers of one mask.

ghost use Rattle.std.specs.Prelude.{◌≡◌, ◌≤◌, [], IfOk, length, get_or};
ghost use Rattle.steiner_tables.specs.KeptNumbers.{kept_numbers};
ghost use Rattle.label_search.specs.Stamped.{far};

use grid_base::NoMemory;
use label_search::FAR;
use std::alloc::Global;
use std::marker::Model;

/// Numbers by index, with room reserved for so many. The system gives memory to a page of them when it is first written,
/// so rows cost what the widest search needs, and not what the grid has.
#[derive(Drop)]
pub(crate) struct KeptRow {
    room: u32,
    numbers: Vec<u64>,
}

impl Model for KeptRow {
    ghost use Rattle.std.specs.Prelude.{◌≤◌, vec_capacity};
    ghost use Rattle.steiner_tables.specs.KeptNumbers.{KeptNumbers, kept_numbers};

    ghost Value = { KeptNumbers };

    ghost view = { λ s. kept_numbers s.room s.numbers.items };

    ghost invariant = { λ s. s.room ≤ vec_capacity s.numbers };
}

impl KeptRow {
    /// An empty row with room for so many numbers.
    pub(crate) fn new(alloc: Global, room: u32) -> Result<KeptRow, NoMemory>
        ensures { IfOk result (λ r. r ≡ kept_numbers room []) }
    {
        let numbers = Vec::with_capacity(alloc, room as usize)?;
        Ok(KeptRow { room, numbers })
    }

    /// Takes all numbers out.
    pub(crate) fn forget(&mut self)
        ensures { self.new ≡ kept_numbers self.old.room [] }
    {
        self.numbers.clear();
    }

    /// The numbers.
    pub(crate) fn list(&self) -> &[u64]
        ensures { result.now ≡ self.now.numbers }
    {
        self.numbers.as_slice()
    }

    /// The number at an index, or `FAR`.
    pub(crate) fn number(&self, index: u32) -> u64
        ensures { result ≡ get_or self.now.numbers index far }
    {
        if (index as usize) < self.numbers.len() {
            self.numbers[index as usize]
        } else {
            FAR
        }
    }

    /// Keeps these numbers in place of those that were kept.
    pub(crate) fn store(&mut self, numbers: &[u64])
        requires { length numbers.now ≤ self.old.room }
        ensures { self.new ≡ kept_numbers self.old.room numbers.now }
    {
        self.numbers.clear();
        self.numbers.extend_from_slice(numbers).unwrap();
    }
}
