//! The directions in which lines of pieces lead.

ghost use Rattle.std.specs.Prelude.{◌≡◌, ◌<◌, ◌≤◌, ◌^◌};
ghost use Rattle.straight_runs.specs.Lines.{rise, piece_towards, line_number, axis_of};

use grid_base::{Axis, Edge, Piece, Size, Vertex, Via};

/// The direction in which a piece leads from the vertex that it goes from.
#[derive(Debug, Drop, Clone, Copy, PartialEq, Eq)]
pub enum Direction {
    /// To the next column.
    East,
    /// To the next row.
    North,
    /// To the next layer.
    Up,
}

impl Direction {
    /// By how much a piece of this direction raises the number of a vertex.
    pub fn rise(self, size: Size) -> u32
        ensures value { result ≡ rise self size }
        ensures positive { 1 ≤ result }
    {
        match self {
            Direction::East => 1,
            Direction::North => size.cols(),
            Direction::Up => size.cols() * size.rows(),
        }
    }

    /// The axis of the edges that lead in this direction. `None` is the direction of vias.
    pub fn axis(self) -> Option<Axis>
        ensures { result ≡ axis_of self }
    {
        match self {
            Direction::East => Some(Axis::X),
            Direction::North => Some(Axis::Y),
            Direction::Up => None,
        }
    }

    /// The piece that leads from the vertex in this direction.
    pub fn piece_from(self, start: Vertex) -> Piece
        requires { start.0 < 2 ^ 31 }
        ensures { result ≡ piece_towards self start.0 }
    {
        match self {
            Direction::East => Piece::Edge(Edge::along(start, Axis::X)),
            Direction::North => Piece::Edge(Edge::along(start, Axis::Y)),
            Direction::Up => Piece::Via(Via(start.0)),
        }
    }

    /// The number of the piece that leads from the vertex, when all pieces are counted line by line: first those to the east
    /// row by row, then those to the north column by column, then the vias stack by stack.
    #[tactic(auto, using(crate::proofs::Lines::column_counted, crate::proofs::Lines::stack_counted))]
    pub fn line_number(self, size: Size, start: Vertex) -> u64
        ensures { result ≡ line_number size self start.0 }
    {
        let vertices = u64::from(size.vertices());
        match self {
            Direction::East => u64::from(start.0),
            Direction::North => {
                let lines_before = u64::from(start.0 % size.cols());
                let long = u64::from(size.rows() * size.layers());
                vertices + lines_before * long + u64::from(start.0 / size.cols())
            }
            Direction::Up => {
                let tiles = self.rise(size);
                let lines_before = u64::from(start.0 % tiles);
                let long = u64::from(size.layers());
                2 * vertices + lines_before * long + u64::from(start.0 / tiles)
            }
        }
    }
}
