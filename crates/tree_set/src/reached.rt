//! The vertices that a search has reached.

ghost use Rattle.std.specs.Prelude.{◌≡◌, ◌^◌, ◌↔◌, ℕ, None, IsTrue};
ghost use Rattle.tree_set.specs.Reached.{Has, mark_of};

use grid_base::{Marks, NoMemory, Vertex};
use std::alloc::Global;
use std::collections::BTreeSet;

/// The numbers of the vertices that were reached. It takes memory for these alone, whatever the size of the grid.
#[derive(Drop)]
pub struct Reached {
    pub(crate) numbers: BTreeSet<u32>,
}

impl Reached {
    /// No vertex yet.
    pub(crate) fn none(alloc: Global) -> Reached
        ensures { (v : ℕ) → mark_of result v ≡ None }
    {
        Reached {
            numbers: BTreeSet::new(alloc),
        }
    }

    /// Whether the vertex was reached.
    #[tactic(auto, unfolding(crate::specs::Reached::Has))]
    pub(crate) fn has(&self, v: Vertex) -> bool
        ensures { IsTrue result ↔ Has self.now v.0 }
    {
        self.numbers.contains(&v.0)
    }
}

impl Marks for Reached {
    ghost mark_of = { mark_of };

    ghost next_mark = { λ reached. 0 };

    ghost limit = { λ reached. 2 ^ 32 };

    fn mark(&mut self, v: Vertex) -> Result<bool, NoMemory> {
        Ok(self.numbers.insert(v.0)?)
    }
}
