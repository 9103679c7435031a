//! What is measured of blocks one by one, so that none of their pieces is kept.

ghost use Rattle.std.specs.Prelude.{◌≡◌, ◌+◌, ◌<◌, ◌^◌, ℕ, All, IfOk, length, cond};
ghost use Rattle.std.specs.List.{list_any};
ghost use Rattle.straight_runs.specs.LoadSums.{AreLoadSums};
ghost use Rattle.straight_runs.specs.Runs.{IsStraightRun, pieces_of};
ghost use Rattle.grid_base.specs.Lists.{HasNoRepeats};
ghost use Rattle.grid_graph.specs.declared.kind.Kind.TheVariants.{Choked};
ghost use Rattle.grid_graph.specs.Grids.{IsNetWidth, size_of};
ghost use Rattle.tree_set.specs.Loads.{net_load};
ghost use Rattle.route_judge.specs.KindCounts.{AreCountsOf};
ghost use Rattle.route_judge.specs.Measured as measured;

use crate::beyond::goes_beyond;
use grid_base::{NoMemory, Size};
use grid_graph::{Grid, Ground};
use std::alloc::Global;
use straight_runs::{LineCounts, LoadSums, Run, piece_count};

/// The loads, the wirelength and the nets beyond their grounds, of the sets so far.
#[derive(Drop)]
pub(crate) struct RunningMeasure {
    /// The loads of all edges, as sums over runs.
    pub loads: LoadSums,
    /// How many pieces the sets have.
    pub wirelength: u64,
    /// How many nets use a choked edge outside their ground.
    pub beyond: u32,
}

impl RunningMeasure {
    /// What is measured of no sets.
    pub fn none(alloc: Global, size: Size) -> Result<RunningMeasure, NoMemory>
        ensures size { IfOk result (λ sums. sums.loads.size ≡ size) }
        ensures loads { IfOk result (λ sums. AreLoadSums (λ e. 0) sums.loads) }
        ensures wirelength { IfOk result (λ sums. sums.wirelength ≡ 0) }
        ensures beyond { IfOk result (λ sums. sums.beyond ≡ 0) }
    {
        Ok(RunningMeasure {
            loads: LoadSums::none(alloc, size)?,
            wirelength: 0,
            beyond: 0,
        })
    }

    /// Adds the set of a net of this width and with this ground, as disjoint runs of its pieces.
    pub fn add(
        &mut self,
        grid: &Grid,
        choked: &LineCounts<'_>,
        width: u32,
        over: Ground,
        runs: &[Run],
    )
        requires choked { AreCountsOf grid.now Choked choked.now }
        requires width { IsNetWidth grid.now width }
        requires runs { All (IsStraightRun (size_of grid.now)) runs.now }
        requires distinct { HasNoRepeats (pieces_of (size_of grid.now) runs.now) }
        requires size { self.old.loads.size ≡ size_of grid.now }
        requires long { self.old.wirelength + length (pieces_of (size_of grid.now) runs.now) < 2 ^ 64 }
        requires count { self.old.beyond + 1 < 2 ^ 32 }
        ensures size { self.new.loads.size ≡ self.old.loads.size }
        ensures loads { (load : ℕ → ℕ) → AreLoadSums load self.old.loads
            → AreLoadSums (λ e. load e + net_load grid.now width (pieces_of (size_of grid.now) runs.now) e) self.new.loads }
        ensures wirelength { self.new.wirelength ≡ self.old.wirelength + length (pieces_of (size_of grid.now) runs.now) }
        ensures beyond { self.new.beyond ≡ self.old.beyond + cond (list_any (measured.is_beyond grid.now over) (pieces_of (size_of grid.now) runs.now)) 1 0 }
    {
        self.loads.add_net(grid, width, runs);
        self.wirelength += piece_count(grid.size(), runs);
        self.beyond += u32::from(goes_beyond(grid, choked, over, runs));
    }
}
