//! Laws of walks and joins: each is the contract of a call that does nothing.

ghost use Rattle.std.specs.Prelude.{◌≡◌, ◌<◌, ◌≤◌, ℕ, [], ◌∷◌, All};
ghost use Rattle.grid_base.specs.Numbers.{IsVertex, IsInside, vertex_number, to_next_col, to_next_row, to_next_layer};
ghost use Rattle.grid_base.specs.Walks.{WalkBetween, InPieces, JoinsList};

use crate::piece::Piece;
use crate::place::Place;
use crate::size::Size;
use crate::vertex::Vertex;

/// Every set of pieces joins fewer than two vertices.
pub fn fewer_than_two_are_joined(size: &Size, pieces: &[Piece], v: Vertex)
    requires { IsVertex size.now v.0 }
    ensures none { JoinsList size.now pieces.now [] }
    ensures alone { JoinsList size.now pieces.now (v ∷ []) }
{}

/// Walks can be turned round and put together, and a vertex alone is one.
pub fn walks_are_an_equivalence(size: &Size, pieces: &[Piece], a: Vertex, b: Vertex, c: Vertex)
    requires { IsVertex size.now a.0 }
    ensures alone { WalkBetween size.now (InPieces pieces.now) a.0 a.0 }
    ensures back { WalkBetween size.now (InPieces pieces.now) a.0 b.0 → WalkBetween size.now (InPieces pieces.now) b.0 a.0 }
    ensures on { WalkBetween size.now (InPieces pieces.now) a.0 b.0 → WalkBetween size.now (InPieces pieces.now) b.0 c.0 → WalkBetween size.now (InPieces pieces.now) a.0 c.0 }
{}

/// Without pieces no two vertices are joined.
pub fn no_pieces_join_no_two(size: &Size, a: Vertex, b: Vertex)
    ensures walk { WalkBetween size.now (InPieces []) a.0 b.0 → a.0 ≡ b.0 }
    ensures joined { JoinsList size.now [] (a ∷ b ∷ []) → a.0 ≡ b.0 }
{}

/// What some pieces join is joined with more pieces too.
pub fn more_pieces_join_more(size: &Size, fewer: &[Piece], more: &[Piece], terminals: &[Vertex])
    requires { All (InPieces more.now) fewer.now }
    ensures { JoinsList size.now fewer.now terminals.now → JoinsList size.now more.now terminals.now }
{}

/// It is enough that a walk leads from one vertex to each.
pub fn reached_from_one_are_joined(
    size: &Size,
    pieces: &[Piece],
    root: Vertex,
    terminals: &[Vertex],
)
    requires { All (λ t. WalkBetween size.now (InPieces pieces.now) root.0 t.0) terminals.now }
    ensures { JoinsList size.now pieces.now terminals.now }
{}

/// A straight run of pieces joins its two ends, whether of edges along x, of edges along y or of vias.
pub fn straight_runs_join_their_ends(size: &Size, pieces: &[Piece], low: Place, high: Place)
    requires low { IsInside size.now low }
    requires high { IsInside size.now high }
    ensures along_x { low.col ≤ high.col
        → ((col : ℕ) → low.col ≤ col → col < high.col → InPieces pieces.now (to_next_col (vertex_number size.now col low.row low.layer)))
        → WalkBetween size.now (InPieces pieces.now) (vertex_number size.now low.col low.row low.layer) (vertex_number size.now high.col low.row low.layer) }
    ensures along_y { low.row ≤ high.row
        → ((row : ℕ) → low.row ≤ row → row < high.row → InPieces pieces.now (to_next_row (vertex_number size.now low.col row low.layer)))
        → WalkBetween size.now (InPieces pieces.now) (vertex_number size.now low.col low.row low.layer) (vertex_number size.now low.col high.row low.layer) }
    ensures through_layers { low.layer ≤ high.layer
        → ((layer : ℕ) → low.layer ≤ layer → layer < high.layer → InPieces pieces.now (to_next_layer (vertex_number size.now low.col low.row layer)))
        → WalkBetween size.now (InPieces pieces.now) (vertex_number size.now low.col low.row low.layer) (vertex_number size.now low.col low.row high.layer) }
{}
