//! Numbers of tile edges.

ghost use Rattle.std.specs.Prelude.{◌≡◌, ◌<◌, ◌*◌};
ghost use Rattle.grid_graph.specs.Flat.{tiles};
ghost use Rattle.grid_graph.specs.Grids.{size_of};

use grid_graph::Grid;

/// How many edge numbers a layer has: the number of tile edges.
pub fn tile_edges(grid: &Grid) -> u32
    ensures value { result ≡ 2 * tiles (size_of grid.now) }
    ensures some { 0 < result }
{
    let size = grid.size();
    2 * (size.cols() * size.rows())
}
