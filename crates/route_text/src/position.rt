//! Positions of tiles.

ghost use Rattle.std.specs.Prelude.{◌≡◌};
ghost use Rattle.grid_graph.specs.Grids.{layout_of};
ghost use Rattle.grid_graph.specs.Tiles.{written_position};

use grid_graph::{Grid, written_position};

/// The position that is written for a column.
pub(crate) fn x_of(grid: &Grid, col: u32) -> i128
    ensures { result ≡ written_position (layout_of grid.now).origin.0 (layout_of grid.now).tile.0 col }
{
    written_position(grid.origin().0, grid.tile().0, col)
}

/// The position that is written for a row.
pub(crate) fn y_of(grid: &Grid, row: u32) -> i128
    ensures { result ≡ written_position (layout_of grid.now).origin.1 (layout_of grid.now).tile.1 row }
{
    written_position(grid.origin().1, grid.tile().1, row)
}
