//! Whether rows rise slowly.

ghost use Rattle.std.specs.Prelude.{◌≡◌, ◌<◌, ◌≤◌, ◌↔◌, ℕ, IsTrue, length};
ghost use Rattle.grid_base.specs.Numbers.{IsVertex, start_of, vertices};
ghost use Rattle.grid_base.specs.declared.piece.Piece.{Piece};
ghost use Rattle.brought_bounds.specs.TableWords.{table_number, IsFilled, RisesAlong};
ghost use Rattle.label_search.specs.Sets.{RisesSlowly};

use crate::rows::Rows;
use grid_base::{Axis, Edge, Piece, Size, Vertex, Via};
use grid_graph::Weights;

/// Whether the numbers of a mask rise along a piece by at most its weight, in either direction. Along what isn't an allowed
/// piece they may rise as they will.
fn rises_along<W: Weights>(weights: &W, size: Size, rows: &Rows, mask: u32, piece: Piece) -> bool
    requires size { size ≡ W.size weights.now }
    requires mask { 0 < mask }
    requires row { mask ≤ length rows.now }
    requires filled { IsFilled size rows.now }
    ensures { IsTrue result ↔ RisesAlong size (W.pieces weights.now) (table_number rows.now mask) piece }
{
    if !weights.allows(piece) {
        return true;
    }
    let (start, end) = size.ends_of(piece);
    let weight = weights.weight(piece);
    rows.number(mask, start).abs_diff(rows.number(mask, end)) <= weight
}

/// Whether they do along each piece that goes from a vertex.
fn rises_from<W: Weights>(weights: &W, size: Size, rows: &Rows, mask: u32, v: Vertex) -> bool
    requires size { size ≡ W.size weights.now }
    requires mask { 0 < mask }
    requires row { mask ≤ length rows.now }
    requires filled { IsFilled size rows.now }
    requires vertex { IsVertex size v.0 }
    ensures { IsTrue result ↔ ((p : Piece) → start_of p ≡ v.0
        → RisesAlong size (W.pieces weights.now) (table_number rows.now mask) p) }
{
    let to_col = Piece::Edge(Edge::along(v, Axis::X));
    let to_row = Piece::Edge(Edge::along(v, Axis::Y));
    if !rises_along(weights, size, rows, mask, to_col) {
        return false;
    }
    if !rises_along(weights, size, rows, mask, to_row) {
        return false;
    }
    rises_along(weights, size, rows, mask, Piece::Via(Via(v.0)))
}

/// Whether they do along each piece.
fn row_rises<W: Weights>(weights: &W, size: Size, rows: &Rows, mask: u32) -> bool
    requires size { size ≡ W.size weights.now }
    requires mask { 0 < mask }
    requires row { mask ≤ length rows.now }
    requires filled { IsFilled size rows.now }
    ensures { IsTrue result ↔ RisesSlowly size (W.pieces weights.now) (table_number rows.now mask) }
{
    for v in 0..size.vertices() {
        if !rises_from(weights, size, rows, mask, Vertex(v)) {
            return false;
        }
    }
    true
}

/// Whether the numbers of all masks rise along each piece by at most its weight.
pub(crate) fn rows_rise<W: Weights>(weights: &W, size: Size, rows: &Rows, last: u32) -> bool
    requires size { size ≡ W.size weights.now }
    requires last { last ≡ length rows.now }
    requires filled { IsFilled size rows.now }
    ensures { IsTrue result ↔ ((mask : ℕ) → 0 < mask → mask ≤ last
        → RisesSlowly size (W.pieces weights.now) (table_number rows.now mask)) }
{
    for place in 0..last {
        if !row_rises(weights, size, rows, place + 1) {
            return false;
        }
    }
    true
}
