//! An edge.

use crate::axis::Axis;
use crate::vertex::Vertex;

/// An edge by its number: `2 * v` goes from vertex v to the next column, `2 * v + 1` to the next row.
#[derive(Debug, Clone, Copy, PartialEq, Eq, PartialOrd, Ord)]
pub struct Edge(pub u32);

impl Edge {
    ghost use Rattle.std.specs.Prelude.{◌≡◌, ◌<◌, ◌^◌};
    ghost use Rattle.grid_base.specs.Numbers.{edge_along, edge_start, edge_axis};

    /// The edge that goes from the vertex along the axis.
    pub fn along(start: Vertex, axis: Axis) -> Edge
        requires { start.0 < 2 ^ 31 }
        ensures { result ≡ edge_along axis start.0 }
    {
        match axis {
            Axis::X => Edge(2 * start.0),
            Axis::Y => Edge(2 * start.0 + 1),
        }
    }

    /// The vertex that the edge goes from.
    pub fn start(self) -> Vertex
        ensures { result.0 ≡ edge_start self.0 }
    {
        Vertex(self.0 / 2)
    }

    /// The axis that the edge runs along.
    pub fn axis(self) -> Axis
        ensures { result ≡ edge_axis self.0 }
    {
        if self.0 % 2 == 0 { Axis::X } else { Axis::Y }
    }
}
