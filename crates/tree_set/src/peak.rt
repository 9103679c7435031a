//! The peak of loads.

ghost use Rattle.std.specs.Prelude.{◌≡◌, ◌+◌, ◌*◌, ◌≤◌, ◌^◌, ◌<◌, ◌↔◌, ℕ, length, slice_index, IsTrue};
ghost use Rattle.grid_base.specs.Numbers.{vertices};
ghost use Rattle.grid_graph.specs.Grids as grids;
ghost use Rattle.tree_set.specs.Measures as measures;
ghost use Rattle.tree_set.specs.Fullest.{IsFullestBelow};
ghost use Rattle.grid_graph.specs.Limits.{max_load};
ghost use Rattle.grid_graph.specs.Grids.{size_of};

use fractions::Fraction;
use grid_base::Edge;
use grid_graph::{Grid, Kind};

/// The greatest load/capacity of an open edge. `loads` has one load per edge number.
pub fn peak_of(grid: &Grid, loads: &[u64]) -> Option<Fraction>
    requires table { length loads.now ≡ 2 * vertices (size_of grid.now) }
    requires room { (e : ℕ) → slice_index loads.now e ≤ max_load }
    ensures { measures.IsPeak grid.now (slice_index loads.now) result }
{
    let edge = fullest_edge(grid, loads)?;
    let load = u128::from(loads[edge.0 as usize]);
    Some(Fraction::of(load, u128::from(grid.capacity(edge))))
}

/// An open edge with the greatest load/capacity.
fn fullest_edge(grid: &Grid, loads: &[u64]) -> Option<Edge>
    requires table { length loads.now ≡ 2 * vertices (size_of grid.now) }
    requires room { (e : ℕ) → slice_index loads.now e ≤ max_load }
    ensures { IsFullestBelow grid.now (slice_index loads.now) (2 * vertices (size_of grid.now)) result }
{
    let mut fullest = None;
    for e in 0..2 * grid.size().vertices() {
        fullest = fuller_of(grid, loads, fullest, Edge(e));
    }
    fullest
}

/// The next edge in place of the fullest so far, where it is open and fuller.
fn fuller_of(grid: &Grid, loads: &[u64], fullest: Option<Edge>, next: Edge) -> Option<Edge>
    requires table { length loads.now ≡ 2 * vertices (size_of grid.now) }
    requires room { (e : ℕ) → slice_index loads.now e ≤ max_load }
    requires edge { grids.IsEdgeNumber grid.now next.0 }
    requires before { IsFullestBelow grid.now (slice_index loads.now) next.0 fullest }
    ensures { IsFullestBelow grid.now (slice_index loads.now) (next.0 + 1) result }
{
    if grid.kind(next) != Kind::Open {
        return fullest;
    }
    match fullest {
        Some(edge) if !is_fuller(grid, loads, next, edge) => Some(edge),
        _ => Some(next),
    }
}

/// Whether the load/capacity of `edge` is greater than that of `other`, by cross products.
fn is_fuller(grid: &Grid, loads: &[u64], edge: Edge, other: Edge) -> bool
    requires table { length loads.now ≡ 2 * vertices (size_of grid.now) }
    requires room { (e : ℕ) → slice_index loads.now e ≤ max_load }
    requires edge { grids.IsEdgeNumber grid.now edge.0 }
    requires other { grids.IsEdgeNumber grid.now other.0 }
    ensures { IsTrue result
        ↔ (slice_index loads.now other.0 * grids.capacity grid.now edge.0 < slice_index loads.now edge.0 * grids.capacity grid.now other.0) }
{
    let load = u128::from(loads[edge.0 as usize]);
    let other_load = u128::from(loads[other.0 as usize]);
    other_load * u128::from(grid.capacity(edge)) < load * u128::from(grid.capacity(other))
}
