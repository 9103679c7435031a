//! Where points lie.

ghost use Rattle.std.specs.Prelude.{◌≡◌, ◌<◌, IfSome};
ghost use Rattle.grid_base.specs.Numbers.{layers, IsInside};
ghost use Rattle.grid_graph.specs.Grids.{size_of};
ghost use Rattle.grid_graph.specs.Layouts.{IsPosition};
ghost use Rattle.route_text.specs.BlockPieces as pieces;
ghost use Rattle.route_text.specs.ReadLimits.{IsPointInRange};

use grid_base::Place;
use grid_graph::Grid;
use route_text::Point;

/// The layer of this number, which counts from 1, of so many layers.
fn layer_index(count: u32, number: i64) -> Option<u32>
    requires { IsPosition number }
    ensures layer { result ≡ pieces.layer_index count number }
    ensures inside { IfSome result (λ layer. layer < count) }
{
    if number < 1 || number > i64::from(count) {
        return None;
    }
    Some((number - 1) as u32)
}

/// The place of a point: the tile of its position, on its layer. `None` is outside the grid.
pub(crate) fn place_of(grid: &Grid, point: Point) -> Option<Place>
    requires { IsPointInRange point }
    ensures place { result ≡ pieces.point_place grid.now point }
    ensures inside { IfSome result (IsInside (size_of grid.now)) }
{
    let (col, row) = grid.tile_of(point.x, point.y)?;
    let layer = layer_index(grid.size().layers(), point.layer)?;
    Some(Place { col, row, layer })
}
