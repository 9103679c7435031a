//! The steps from a vertex whose place is known, to neighbours with theirs.

ghost use Rattle.std.specs.Prelude.{◌≡◌, option_map};
ghost use Rattle.grid_base.specs.Spots as spots;
ghost use Rattle.grid_base.specs.Spots.{IsSpot};

use crate::piece::Piece;
use crate::place::Place;
use crate::sides::{down, east, north, south, up, west};
use crate::size::Size;
use crate::spot::Spot;
use crate::vertex::Vertex;

/// The steps of `steps`, each with the place that it leads to. Nothing is divided.
pub fn spot_steps(size: Size, from: Spot) -> [Option<(Spot, Piece)>; 6]
    requires { IsSpot size from }
    ensures { result ≡ spots.spot_steps size from.vertex.0 }
{
    let Place { col, row, layer } = from.place;
    let v = from.vertex;
    let to_west = Place {
        col: col.saturating_sub(1),
        row,
        layer,
    };
    let to_east = Place {
        col: col.saturating_add(1),
        row,
        layer,
    };
    let to_south = Place {
        col,
        row: row.saturating_sub(1),
        layer,
    };
    let to_north = Place {
        col,
        row: row.saturating_add(1),
        layer,
    };
    let to_down = Place {
        col,
        row,
        layer: layer.saturating_sub(1),
    };
    let to_up = Place {
        col,
        row,
        layer: layer.saturating_add(1),
    };
    [
        arriving(west(size, from.place, v), to_west),
        arriving(east(size, from.place, v), to_east),
        arriving(south(size, from.place, v), to_south),
        arriving(north(size, from.place, v), to_north),
        arriving(down(size, from.place, v), to_down),
        arriving(up(size, from.place, v), to_up),
    ]
}

/// The step with the place that it leads to.
fn arriving(step: Option<(Vertex, Piece)>, place: Place) -> Option<(Spot, Piece)>
    ensures { result ≡ option_map (λ x. (record { vertex = x.0; place = place }, x.1)) step }
{
    match step {
        Some((vertex, by)) => Some((Spot { vertex, place }, by)),
        None => None,
    }
}
