//! The run of the pieces between two places in line.

ghost use Rattle.std.specs.Prelude.{◌≡◌};
ghost use Rattle.grid_base.specs.Lines.{AreInLine};
ghost use Rattle.grid_base.specs.Numbers.{IsInside};
ghost use Rattle.straight_runs.specs.Between as between;
ghost use Rattle.straight_runs.specs.Between.{IsRunBetween};

use crate::direction::Direction;
use crate::run::Run;
use grid_base::{Place, Size, Vertex};

/// The vertex at the least column, row and layer of two places.
fn lowest_corner(size: Size, from: Place, to: Place) -> Vertex
    requires from { IsInside size from }
    requires to { IsInside size to }
    ensures { result.0 ≡ between.lowest_corner size from to }
{
    let low = Place {
        col: from.col.min(to.col),
        row: from.row.min(to.row),
        layer: from.layer.min(to.layer),
    };
    size.vertex_of(low).unwrap()
}

/// The run of the pieces between two places in line. `None` is nothing between a place and itself.
pub fn run_between(size: Size, from: Place, to: Place) -> Option<Run>
    requires from { IsInside size from }
    requires to { IsInside size to }
    requires straight { AreInLine from to }
    ensures { IsRunBetween size from to result }
{
    let first = lowest_corner(size, from, to);
    let cols = from.col.abs_diff(to.col);
    let rows = from.row.abs_diff(to.row);
    let layers = from.layer.abs_diff(to.layer);
    let direction = Direction::East;
    if cols > 0 {
        let count = cols;
        return Some(Run {
            direction,
            first,
            count,
        });
    }
    let direction = Direction::North;
    if rows > 0 {
        let count = rows;
        return Some(Run {
            direction,
            first,
            count,
        });
    }
    let direction = Direction::Up;
    if layers > 0 {
        let count = layers;
        return Some(Run {
            direction,
            first,
            count,
        });
    }
    None
}
