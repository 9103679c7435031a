//! Edges with more load than capacity.

ghost use Rattle.std.specs.Prelude.{◌≡◌, ◌↔◌, Contains, IsTrue, length};
ghost use Rattle.grid_base.specs.Numbers.{IsPiece};
ghost use Rattle.grid_base.specs.declared.piece.Piece.{Piece as PieceOf};
ghost use Rattle.grid_graph.specs.Grids.{edge_numbers, size_of};
ghost use Rattle.tree_set.specs.Routings.{ArePieces};
ghost use Rattle.routing_state.specs.Overfull.{IsOverfull};

use grid_base::Piece;
use grid_graph::{Grid, Kind};
use tree_set::Tree;

/// Whether the set holds an open edge with less than no room.
pub(crate) fn holds_overfull(grid: &Grid, rooms: &[i64], tree: &Tree) -> bool
    requires pieces { ArePieces (size_of grid.now) tree.now }
    requires rooms { length rooms.now ≡ edge_numbers grid.now }
    ensures { IsTrue result ↔ ((p : PieceOf) × Contains tree.now p × IsOverfull grid.now rooms.now p) }
{
    for p in tree.pieces() {
        if is_overfull(grid, rooms, *p) {
            return true;
        }
    }
    false
}

/// Whether the piece is an open edge with less than no room.
fn is_overfull(grid: &Grid, rooms: &[i64], p: Piece) -> bool
    requires piece { IsPiece (size_of grid.now) p }
    requires rooms { length rooms.now ≡ edge_numbers grid.now }
    ensures { IsTrue result ↔ IsOverfull grid.now rooms.now p }
{
    match p {
        Piece::Edge(e) => rooms[e.0 as usize] < 0 && grid.kind(e) == Kind::Open,
        Piece::Via(_) => false,
    }
}
