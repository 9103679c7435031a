//! Where the seen loads may differ from what was last found.

ghost use Rattle.std.specs.Prelude.{◌≡◌, ◌*◌, ◌/◌, ◌^◌, ◌<◌, ◌≤◌, ◌+◌, length, replicate, slice_set, false, ℕ, IfOk};
ghost use Rattle.grid_graph.specs.Grids.{edge_numbers, entries, size_of};
ghost use Rattle.tree_set.specs.Routings.{ArePieces};
ghost use Rattle.price_workers.specs.Marks.{entries_per_mark, mark_for, MarksEdges, MarksTree};

use grid_base::{NoMemory, Piece};
use grid_graph::Grid;
use std::alloc::Global;
use tree_set::Tree;

/// So many entries share a mark, so that all marks stay near the processor through a reading.
const ENTRIES_PER_MARK: u32 = 64;

/// Marks of runs of entries. Where a run isn't marked, the seen loads are what the last loads found.
#[derive(Drop)]
pub(crate) struct Changes {
    marks: Vec<u8>,
}

impl Changes {
    /// All entries of a grid may differ.
    pub(crate) fn everywhere(alloc: Global, grid: &Grid) -> Result<Changes, NoMemory>
        ensures marked { IfOk result (λ c. c.marks.items ≡ replicate (entries grid.now / entries_per_mark + 1) 1) }
    {
        let entries = 2 * grid.size().vertices() + 1;
        let marks = vec![in alloc; 1u8; (entries / ENTRIES_PER_MARK + 1) as usize]?;
        Ok(Changes { marks })
    }

    /// Whether an entry may differ.
    pub(crate) fn may_be_at(&self, entry: u32) -> bool
        requires { entry / entries_per_mark < length self.now.marks.items }
        ensures { result ≡ false → mark_for self.now.marks.items entry ≡ 0 }
    {
        self.marks[(entry / ENTRIES_PER_MARK) as usize] != 0
    }

    /// The first entry behind this one with another mark.
    pub(crate) fn next_after(&self, entry: u32) -> u32
        requires { entry ≤ 2 ^ 31 }
        ensures { result ≡ (entry / entries_per_mark + 1) * entries_per_mark }
    {
        (entry / ENTRIES_PER_MARK + 1) * ENTRIES_PER_MARK
    }

    /// An entry may differ from now on.
    fn add(&mut self, entry: u32)
        requires { entry / entries_per_mark < length self.old.marks.items }
        ensures { self.new.marks.items ≡ slice_set self.old.marks.items (entry / entries_per_mark) 1 }
    {
        self.marks[(entry / ENTRIES_PER_MARK) as usize] = 1;
    }

    /// The entries that the load of a set is on may differ from now on.
    pub(crate) fn add_tree(&mut self, grid: &Grid, tree: &Tree)
        requires pieces { ArePieces (size_of grid.now) tree.now }
        requires long { length self.old.marks.items ≡ entries grid.now / entries_per_mark + 1 }
        ensures marked { MarksTree grid.now tree.now self.old.marks.items self.new.marks.items }
    {
        self.add_edges(grid, tree);
        self.add(2 * grid.size().vertices());
    }

    /// The edges of a set may differ from now on.
    fn add_edges(&mut self, grid: &Grid, tree: &Tree)
        requires pieces { ArePieces (size_of grid.now) tree.now }
        requires long { length self.old.marks.items ≡ entries grid.now / entries_per_mark + 1 }
        ensures marked { MarksEdges grid.now tree.now self.old.marks.items self.new.marks.items }
    {
        for p in tree.pieces() {
            if let Piece::Edge(e) = *p {
                self.add(e.0);
            }
        }
    }

    /// No entry differs.
    pub(crate) fn clear(&mut self)
        ensures long { length self.new.marks.items ≡ length self.old.marks.items }
    {
        self.marks.fill(0);
    }
}
