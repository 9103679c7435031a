//! Loads of edges as sums over runs.

ghost use Rattle.std.specs.Prelude.{◌≡◌, ◌*◌, length};
ghost use Rattle.grid_base.specs.Numbers.{vertices};

use crate::run::Run;
use crate::summing::sum_up;
use grid_base::{Edge, NoMemory, Size};
use grid_graph::Grid;
use std::alloc::Global;

/// The loads of all edges, which a run changes in two steps however long it is: where it begins and where it ends.
///
/// For each edge the difference to the load of the edge before it on its line is kept. It may be less than 0, so it wraps.
#[derive(Drop)]
pub struct LoadSums {
    pub size: Size,
    differences: Vec<u64>,
    pub ghost long: { length differences.items ≡ 2 * vertices size },
}

impl LoadSums {
    ghost use Rattle.std.specs.Prelude.{◌+◌, ◌^◌, ◌<◌, ℕ, All, IfOk, slice_index};
    ghost use Rattle.grid_base.specs.Lists.{HasNoRepeats};
    ghost use Rattle.grid_graph.specs.Grids.{IsNetWidth, size_of};
    ghost use Rattle.tree_set.specs.Loads.{net_load};
    ghost use Rattle.straight_runs.specs.LoadSums.{AreLoadSums, run_load};
    ghost use Rattle.straight_runs.specs.Runs.{IsStraightRun, pieces_of};

    /// No edge of a grid of this size has a load.
    pub fn none(alloc: Global, size: Size) -> Result<LoadSums, NoMemory>
        ensures size { IfOk result (λ sums. sums.size ≡ size) }
        ensures none { IfOk result (λ sums. AreLoadSums (λ e. 0) sums) }
    {
        let differences = vec![in alloc; 0u64; 2 * size.vertices() as usize]?;
        Ok(LoadSums { size, differences })
    }

    /// Adds a demand to the load of each edge of a run.
    pub fn add(&mut self, run: Run, demand: u32)
        requires { IsStraightRun self.old.size run }
        ensures size { self.new.size ≡ self.old.size }
        ensures added { (load : ℕ → ℕ) → AreLoadSums load self.old
            → AreLoadSums (λ e. load e + run_load self.old.size run demand e) self.new }
    {
        let Some(axis) = run.direction.axis() else {
            return;
        };
        let begin = Edge::along(run.first, axis).0 as usize;
        let end = Edge::along(run.end(self.size), axis).0 as usize;
        let demand = u64::from(demand);
        self.differences[begin] = self.differences[begin].wrapping_add(demand);
        self.differences[end] = self.differences[end].wrapping_sub(demand);
    }

    /// Adds what a net of this width uses of the edges of disjoint runs.
    pub fn add_net(&mut self, grid: &Grid, width: u32, runs: &[Run])
        requires size { self.old.size ≡ size_of grid.now }
        requires width { IsNetWidth grid.now width }
        requires runs { All (IsStraightRun (size_of grid.now)) runs.now }
        requires distinct { HasNoRepeats (pieces_of (size_of grid.now) runs.now) }
        ensures size { self.new.size ≡ self.old.size }
        ensures added { (load : ℕ → ℕ) → AreLoadSums load self.old
            → AreLoadSums (λ e. load e + net_load grid.now width (pieces_of (size_of grid.now) runs.now) e) self.new }
    {
        for run in runs {
            if let Some(axis) = run.direction.axis() {
                let demand = grid.demand(width, Edge::along(run.first, axis));
                self.add(*run, demand);
            }
        }
    }

    /// The load of each edge number, if all were below 2^64.
    pub fn finish(self) -> Vec<u64>
        ensures long { length result.items ≡ 2 * vertices self.size }
        ensures loads { (load : ℕ → ℕ) → AreLoadSums load self
            → ((e : ℕ) → e < 2 * vertices self.size → load e < 2 ^ 64)
            → (e : ℕ) → e < 2 * vertices self.size → slice_index result.items e ≡ load e }
    {
        let size = self.size;
        let mut loads = self.differences;
        sum_up(size, loads.as_mut_slice());
        loads
    }
}
