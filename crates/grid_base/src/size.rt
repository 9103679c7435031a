//! The size of a grid, and the numbers of its vertices and pieces.

ghost use Rattle.grid_base.specs.Limits.{IsGridSize};

use crate::axis::Axis;
use crate::edge::Edge;
use crate::limits::{MAX_LAYERS, MAX_VERTICES};
use crate::piece::Piece;
use crate::place::Place;
use crate::vertex::Vertex;
use crate::via::Via;

/// The columns, rows and layers of a grid, which keep the limits. Definitions read the three numbers.
#[derive(Debug, Clone, Copy, PartialEq, Eq)]
pub struct Size {
    cols: u32,
    rows: u32,
    layers: u32,
    pub ghost within: { IsGridSize cols rows layers },
}

impl Size {
    ghost use Rattle.std.specs.Prelude.{◌≡◌, ◌<◌, ◌≤◌, ◌↔◌, IsSome, IsTrue, IfSome, Some};
    ghost use Rattle.grid_base.specs.declared.piece.Piece.{Piece};
    ghost use Rattle.grid_base.specs.Numbers as numbers;
    ghost use Rattle.grid_base.specs.Numbers.{vertices, vertex_number, place_at, layer_of, start_of, end_of, IsVertex, IsInside, IsPiece, Goes, Connects, AreNeighbours};

    /// A grid of this many columns, rows and layers: at least 1 vertex and at most
    /// `MAX_VERTICES`, at most `MAX_LAYERS` layers.
    pub fn new(cols: u32, rows: u32, layers: u32) -> Option<Self>
        ensures limits { IsSome result ↔ IsGridSize cols rows layers }
        ensures cols { IfSome result (λ s. numbers.cols s ≡ cols) }
        ensures rows { IfSome result (λ s. numbers.rows s ≡ rows) }
        ensures layers { IfSome result (λ s. numbers.layers s ≡ layers) }
    {
        let vertices = cols.checked_mul(rows)?.checked_mul(layers)?;
        if vertices == 0 || vertices > MAX_VERTICES || layers > MAX_LAYERS {
            return None;
        }
        Some(Size { cols, rows, layers })
    }

    /// The number of columns.
    pub fn cols(&self) -> u32
        ensures { result ≡ numbers.cols self.now }
    {
        self.cols
    }

    /// The number of rows.
    pub fn rows(&self) -> u32
        ensures { result ≡ numbers.rows self.now }
    {
        self.rows
    }

    /// The number of layers.
    pub fn layers(&self) -> u32
        ensures { result ≡ numbers.layers self.now }
    {
        self.layers
    }

    /// The number of vertices. There are twice as many edge numbers, and as many via numbers.
    pub fn vertices(&self) -> u32
        ensures { result ≡ vertices self.now }
    {
        self.cols * self.rows * self.layers
    }

    /// The vertex at the place.
    pub fn vertex_of(&self, place: Place) -> Option<Vertex>
        ensures inside { IsSome result ↔ IsInside self.now place }
        ensures number { IfSome result (λ v. v.0 ≡ vertex_number self.now place.col place.row place.layer) }
        ensures vertex { IfSome result (λ v. IsVertex self.now v.0) }
        ensures place { IfSome result (λ v. place_at self.now v.0 ≡ place) }
    {
        if place.col >= self.cols || place.row >= self.rows || place.layer >= self.layers {
            return None;
        }
        Some(Vertex((place.layer * self.rows + place.row) * self.cols + place.col))
    }

    /// The place of the vertex.
    pub fn place_of(&self, v: Vertex) -> Place
        requires { IsVertex self.now v.0 }
        ensures place { result ≡ place_at self.now v.0 }
        ensures inside { IsInside self.now result }
        ensures number { vertex_number self.now result.col result.row result.layer ≡ v.0 }
    {
        Place {
            col: v.0 % self.cols,
            row: v.0 / self.cols % self.rows,
            layer: v.0 / self.cols / self.rows,
        }
    }

    /// The layer of the vertex. One past the last vertex has one past the last layer.
    pub fn layer_of(&self, v: Vertex) -> u32
        ensures layer { result ≡ layer_of self.now v.0 }
        ensures inside { IsVertex self.now v.0 → result < numbers.layers self.now }
    {
        v.0 / (self.cols * self.rows)
    }

    /// Whether the number belongs to a piece: its end is in the grid.
    pub fn is_piece(&self, p: Piece) -> bool
        ensures { IsTrue result ↔ IsPiece self.now p }
    {
        match p {
            Piece::Edge(edge) => {
                let v = edge.start().0;
                v < self.vertices()
                    && match edge.axis() {
                        Axis::X => v % self.cols + 1 < self.cols,
                        Axis::Y => v / self.cols % self.rows + 1 < self.rows,
                    }
            }
            Piece::Via(Via(v)) => {
                v < self.vertices() && v / self.cols / self.rows + 1 < self.layers
            }
        }
    }

    /// The two ends of the piece: the vertex that it goes from, then the one that it goes to.
    pub fn ends_of(&self, p: Piece) -> (Vertex, Vertex)
        requires { IsPiece self.now p }
        ensures start { result.0.0 ≡ start_of p }
        ensures end { result.1.0 ≡ end_of self.now p }
        ensures neighbours { AreNeighbours self.now result.0.0 result.1.0 }
    {
        match p {
            Piece::Edge(edge) => {
                let start = edge.start();
                match edge.axis() {
                    Axis::X => (start, Vertex(start.0 + 1)),
                    Axis::Y => (start, Vertex(start.0 + self.cols)),
                }
            }
            Piece::Via(Via(v)) => (Vertex(v), Vertex(v + self.cols * self.rows)),
        }
    }

    /// The piece whose ends are these two, in either order.
    pub fn piece_between(&self, a: Vertex, b: Vertex) -> Option<Piece>
        ensures neighbours { IsSome result ↔ AreNeighbours self.now a.0 b.0 }
        ensures connects { IfSome result (λ p. Connects self.now p a.0 b.0) }
        ensures only { (p : Piece) → Connects self.now p a.0 b.0 → result ≡ Some p }
    {
        let vertices = self.vertices();
        if a.0 >= vertices || b.0 >= vertices {
            return None;
        }
        self.piece_up(Vertex(a.0.min(b.0)), Vertex(a.0.max(b.0)))
    }

    // The piece that goes from the vertex `start` to `end`.
    fn piece_up(&self, start: Vertex, end: Vertex) -> Option<Piece>
        requires { IsVertex self.now start.0 }
        ensures goes { IfSome result (λ p. Goes self.now p start.0 end.0) }
        ensures only { (p : Piece) → Goes self.now p start.0 end.0 → result ≡ Some p }
    {
        let to_col = Piece::Edge(Edge::along(start, Axis::X));
        let to_row = Piece::Edge(Edge::along(start, Axis::Y));
        let to_layer = Piece::Via(Via(start.0));
        if self.leads_to(to_col, end) {
            Some(to_col)
        } else if self.leads_to(to_row, end) {
            Some(to_row)
        } else if self.leads_to(to_layer, end) {
            Some(to_layer)
        } else {
            None
        }
    }

    // Whether it is a piece, and goes to that vertex.
    fn leads_to(&self, p: Piece, end: Vertex) -> bool
        ensures { IsTrue result ↔ (IsPiece self.now p × (end_of self.now p ≡ end.0)) }
    {
        self.is_piece(p) && self.ends_of(p).1 == end
    }
}
