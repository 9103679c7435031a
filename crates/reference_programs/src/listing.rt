//! Lists of pieces with their weights and lower bounds of them, for tests.

ghost use Rattle.std.specs.Prelude.{◌≡◌, ◌≤◌, ℕ, None, IfSome, IsTrue};
ghost use Rattle.grid_base.specs.declared.piece.Piece.{Piece as Weighed};
ghost use Rattle.grid_graph.specs.Limits.{max_weight};
ghost use Rattle.grid_graph.specs.Weighed.{Weighs, IsAllowed, NoPieceTwice, WeighsOnlyPieces, AreWithinLimit};
ghost use Rattle.label_search.specs.Paths.{NoneWeighsNothing};
ghost use Rattle.reference_programs.specs.LeastOver.{is_over, least_over};

use grid_base::{Edge, Piece, Size};
use grid_graph::MAX_WEIGHT;

/// The weight of a piece that is in the list.
pub(crate) fn weight_in(pieces: &[(Piece, u64)], p: Piece) -> Option<u64>
    ensures some { IfSome result (λ weight. Weighs pieces.now p weight) }
    ensures none { result ≡ None → ¬ IsAllowed pieces.now p }
{
    for entry in pieces {
        if entry.0 == p {
            return Some(entry.1);
        }
    }
    None
}

/// Whether no piece is in the list twice.
pub(crate) fn are_different(pieces: &[(Piece, u64)]) -> bool
    ensures { IsTrue result → NoPieceTwice pieces.now }
{
    for i in 0..pieces.len() {
        if weight_in(&pieces[..i], pieces[i].0).is_some() {
            return false;
        }
    }
    true
}

/// Whether all are pieces of that size, and none is too heavy.
pub(crate) fn are_light_pieces(size: Size, pieces: &[(Piece, u64)]) -> bool
    ensures inside { IsTrue result → WeighsOnlyPieces size pieces.now }
    ensures light { IsTrue result → AreWithinLimit pieces.now }
{
    for entry in pieces {
        if !size.is_piece(entry.0) || entry.1 > MAX_WEIGHT {
            return false;
        }
    }
    true
}

/// Whether no piece weighs nothing.
pub(crate) fn are_positive(pieces: &[(Piece, u64)]) -> bool
    ensures { IsTrue result → NoneWeighsNothing pieces.now }
{
    for entry in pieces {
        if entry.1 == 0 {
            return false;
        }
    }
    true
}

/// The least weight in the list, and no more than a piece may weigh.
pub(crate) fn least_weight(pieces: &[(Piece, u64)]) -> u64
    ensures below { (p : Weighed) (weight : ℕ) → Weighs pieces.now p weight → result ≤ weight }
    ensures limit { result ≤ max_weight }
{
    let mut least = MAX_WEIGHT;
    for entry in pieces {
        least = least.min(entry.1);
    }
    least
}

/// The least that edges over a tile edge weigh, and no more than a piece may weigh.
pub(crate) fn least_over(size: Size, pieces: &[(Piece, u64)], e: Edge) -> u64
    ensures { result ≡ least_over size pieces.now e.0 }
{
    if pieces.is_empty() {
        return MAX_WEIGHT;
    }
    let (p, weight) = pieces[0];
    let least = least_over(size, &pieces[1..], e);
    if is_over(size, e, p) {
        weight.min(least)
    } else {
        least
    }
}

/// Whether the piece is an edge over the tile edge.
fn is_over(size: Size, e: Edge, p: Piece) -> bool
    ensures { result ≡ is_over size e.0 p }
{
    match p {
        Piece::Edge(edge) => edge.0 % (2 * (size.cols() * size.rows())) == e.0,
        Piece::Via(_) => false,
    }
}
