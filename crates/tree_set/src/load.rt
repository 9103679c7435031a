//! Loads of edges.

ghost use Rattle.std.specs.Prelude.{◌≡◌, ◌+◌, ◌*◌, ◌≤◌, ◌^◌, ℕ, length, slice_index};
ghost use Rattle.grid_base.specs.Lists.{HasNoRepeats};
ghost use Rattle.grid_base.specs.Numbers.{vertices};
ghost use Rattle.grid_graph.specs.Grids.{IsNetWidth, size_of};
ghost use Rattle.tree_set.specs.Loads.{net_load};
ghost use Rattle.tree_set.specs.Routings.{ArePieces};
ghost use Rattle.grid_graph.specs.Limits.{max_demand, max_load};

use crate::tree::Tree;
use grid_base::Piece;
use grid_graph::Grid;

/// Adds the demand of a net of this width to the load of each edge of its set. `loads` has one load per edge number.
pub fn add_load(grid: &Grid, width: u32, tree: &Tree, loads: &mut [u64])
    requires width { IsNetWidth grid.now width }
    requires pieces { ArePieces (size_of grid.now) tree.now }
    requires table { length loads.old ≡ 2 * vertices (size_of grid.now) }
    requires room { (e : ℕ) → slice_index loads.old e ≤ max_load }
    ensures value { (e : ℕ) → slice_index loads.new e ≡ slice_index loads.old e + net_load grid.now width tree.now e }
    ensures limit { (e : ℕ) → slice_index loads.new e ≤ slice_index loads.old e + max_demand }
{
    add_pieces(grid, width, tree.pieces(), loads);
}

/// The same for pieces in any order, each listed once.
pub fn add_pieces(grid: &Grid, width: u32, pieces: &[Piece], loads: &mut [u64])
    requires width { IsNetWidth grid.now width }
    requires pieces { ArePieces (size_of grid.now) pieces.now }
    requires once { HasNoRepeats pieces.now }
    requires table { length loads.old ≡ 2 * vertices (size_of grid.now) }
    requires room { (e : ℕ) → slice_index loads.old e ≤ max_load }
    ensures value { (e : ℕ) → slice_index loads.new e ≡ slice_index loads.old e + net_load grid.now width pieces.now e }
    ensures limit { (e : ℕ) → slice_index loads.new e ≤ slice_index loads.old e + max_demand }
{
    for p in pieces {
        if let Piece::Edge(e) = *p {
            loads[e.0 as usize] += u64::from(grid.demand(width, e));
        }
    }
}
