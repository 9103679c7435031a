//! Borders of tiles.

ghost use Rattle.std.specs.Prelude.{◌≡◌, ◌≤◌, ◌↔◌, ◌≤ℤ◌, pos, IsTrue};
ghost use Rattle.grid_base.specs.Limits.{max_vertices};
ghost use Rattle.grid_graph.specs.Borders.{HasBordersInRange};
ghost use Rattle.grid_graph.specs.Layouts.{IsPosition, IsTileSize};
ghost use Rattle.grid_graph.specs.Limits.{max_number};
ghost use Rattle.guide_text.specs.Borderlines as lines;

use grid_graph::{Grid, MAX_NUMBER};

/// The lower border of the tile with this number along an axis, where it is no further from zero than a design's numbers.
pub(crate) fn border(origin: i64, tile: i64, index: u32) -> i64
    requires origin { IsPosition origin }
    requires tile { IsTileSize tile }
    requires near { lines.border origin tile index ≤ℤ pos max_number }
    ensures { result ≡ lines.border origin tile index }
{
    let offset = u64::from(index) * tile.unsigned_abs();
    origin + offset as i64
}

/// Whether the upper border of so many tiles is no further from zero than a design's numbers.
fn is_border_near(origin: i64, tile: i64, count: u32) -> bool
    requires origin { IsPosition origin }
    requires tile { IsTileSize tile }
    requires many { count ≤ max_vertices }
    ensures { IsTrue result ↔ (lines.border origin tile count ≤ℤ pos max_number) }
{
    let room = (MAX_NUMBER - origin) as u64;
    u64::from(count) * tile.unsigned_abs() <= room
}

/// Whether a grid is near: no border of it is further from zero than a design's numbers, so that a guide can hold them.
pub fn is_near(grid: &Grid) -> bool
    ensures { IsTrue result ↔ HasBordersInRange grid.now }
{
    let size = grid.size();
    let origin = grid.origin();
    let tile = grid.tile();
    is_border_near(origin.0, tile.0, size.cols()) && is_border_near(origin.1, tile.1, size.rows())
}
