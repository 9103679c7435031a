//! A vertex with its place.

use crate::place::Place;
use crate::size::Size;
use crate::vertex::Vertex;

/// A vertex and where it stands, kept together so that the place is not worked out again.
#[derive(Debug, Clone, Copy, PartialEq, Eq)]
pub struct Spot {
    pub vertex: Vertex,
    pub place: Place,
}

impl Spot {
    ghost use Rattle.std.specs.Prelude.{◌≡◌};
    ghost use Rattle.grid_base.specs.Numbers.{IsVertex};
    ghost use Rattle.grid_base.specs.Spots.{spot_at};

    /// The vertex with its place.
    pub fn of(size: Size, v: Vertex) -> Spot
        requires { IsVertex size v.0 }
        ensures { result ≡ spot_at size v.0 }
    {
        Spot {
            vertex: v,
            place: size.place_of(v),
        }
    }
}
