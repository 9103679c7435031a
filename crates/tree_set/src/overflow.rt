//! The overflow of loads.

ghost use Rattle.std.specs.Prelude.{◌≡◌, ◌*◌, ◌≤◌, ◌^◌, ℕ, length, slice_index};
ghost use Rattle.grid_base.specs.Numbers.{vertices};
ghost use Rattle.grid_graph.specs.Grids as grids;
ghost use Rattle.tree_set.specs.Measures as measures;
ghost use Rattle.tree_set.specs.Limits.{max_routing_load};
ghost use Rattle.grid_graph.specs.Grids.{size_of};

use grid_base::Edge;
use grid_graph::{Grid, Kind};

/// How much more than the capacities the loads are. `loads` has one load per edge number.
pub fn overflow_of(grid: &Grid, loads: &[u64]) -> u64
    requires table { length loads.now ≡ 2 * vertices (size_of grid.now) }
    requires room { (e : ℕ) → slice_index loads.now e ≤ max_routing_load }
    ensures { result ≡ measures.overflow grid.now (slice_index loads.now) }
{
    let mut total = 0;
    for e in 0..2 * grid.size().vertices() {
        total += excess(grid, loads[e as usize], Edge(e));
    }
    total
}

/// How much more than the edge's capacity a load is: 0 on a wall.
fn excess(grid: &Grid, load: u64, e: Edge) -> u64
    requires { grids.IsEdgeNumber grid.now e.0 }
    ensures value { result ≡ measures.excess (grids.kind grid.now e.0) load (grids.capacity grid.now e.0) }
    ensures limit { result ≤ load }
{
    match grid.kind(e) {
        Kind::Open | Kind::Choked => load.saturating_sub(u64::from(grid.capacity(e))),
        Kind::Wall => 0,
    }
}
