//! All sets of pieces of a small grid, and what the programs ask of pieces and vertices, tested.

ghost use Rattle.std.specs.Prelude.{◌↔◌, All, IsTrue};
ghost use Rattle.grid_base.specs.Numbers.{IsVertex, IsPiece};

use grid_base::{Edge, Piece, Size, Vertex, Via};
use std::alloc::{AllocError, Global};
use tree_set::Tree;

/// The piece of a number, of which each tile has three: its two edges and its via. Some are no pieces of a grid.
pub(crate) fn numbered_piece(number: u32) -> Piece {
    let v = number / 3;
    match number % 3 {
        0 => Piece::Edge(Edge(2 * v)),
        1 => Piece::Edge(Edge(2 * v + 1)),
        _ => Piece::Via(Via(v)),
    }
}

/// The pieces of a grid whose bits are set in the number.
pub(crate) fn numbered_set(alloc: Global, size: Size, number: u32) -> Result<Tree, AllocError> {
    let mut pieces = Vec::new(alloc);
    let mut rest = number;
    for at in 0..3 * size.vertices() {
        let piece = numbered_piece(at);
        if size.is_piece(piece) {
            if rest % 2 == 1 {
                pieces.push(piece)?;
            }
            rest /= 2;
        }
    }
    Ok(Tree::of(pieces))
}

pub(crate) fn are_pieces(size: Size, pieces: &[Piece]) -> bool
    ensures { IsTrue result ↔ All (IsPiece size) pieces.now }
{
    pieces.iter().all(|p| size.is_piece(*p))
}

pub(crate) fn are_vertices(size: Size, terminals: &[Vertex]) -> bool
    ensures { IsTrue result ↔ All (λ t. IsVertex size t.0) terminals.now }
{
    terminals.iter().all(|t| t.0 < size.vertices())
}
