//! The runs of edges in a set.

ghost use Rattle.std.specs.Prelude.{◌≡◌, ◌<◌, All, filter, length, slice_index_or};
ghost use Rattle.grid_base.specs.declared.piece.Piece.{Piece};
ghost use Rattle.grid_base.specs.Lines.{edge_from, is_along, stride};
ghost use Rattle.grid_base.specs.Numbers.{IsPiece, IsVertex};
ghost use Rattle.tree_set.specs.Order.{IsRising};
ghost use Rattle.tree_set.specs.Runs.{begins_run, run_end};

use crate::nearby::{find_behind, holds_before};
use grid_base::{Axis, Edge, Piece, Size, Vertex};
use tree_set::Tree;

/// How many places of a set are looked at for an edge of a run, before the whole set is searched.
const NEAR: u32 = 8;

/// Whether the piece is an edge along the axis.
pub(crate) fn is_along(piece: Piece, axis: Axis) -> bool
    ensures { result ≡ is_along axis piece }
{
    match piece {
        Piece::Edge(edge) => edge.axis() == axis,
        Piece::Via(_) => false,
    }
}

/// By how much an edge along the axis raises the number of a vertex.
fn step(size: &Size, axis: Axis) -> u32
    ensures { result ≡ stride axis size.now }
{
    match axis {
        Axis::X => 1,
        Axis::Y => size.cols(),
    }
}

/// Whether a run along the axis begins with the edge at this place of the set: no edge of the set along the axis ends where it starts.
pub(crate) fn begins_run(size: &Size, tree: &Tree, axis: Axis, at: usize, start: Vertex) -> bool
    requires start { IsVertex size.now start.0 }
    requires within { at < length tree.now }
    requires here { (other : Piece) → slice_index_or tree.now at other ≡ edge_from axis start.0 }
    ensures { result ≡ begins_run size.now (filter (is_along axis) tree.now) start.0 }
{
    let step = step(size, axis);
    start.0 < step || !holds_before(tree, at, Edge::along(Vertex(start.0 - step), axis), NEAR)
}

/// Where the run along the axis ends that the edge at this place of the set begins.
pub(crate) fn run_end(size: &Size, tree: &Tree, axis: Axis, at: usize, start: Vertex) -> Vertex
    requires pieces { All (IsPiece size.now) tree.now }
    requires rising { IsRising tree.now }
    requires start { IsVertex size.now start.0 }
    requires within { at < length tree.now }
    requires here { (other : Piece) → slice_index_or tree.now at other ≡ edge_from axis start.0 }
    ensures end { result.0 ≡ run_end size.now (filter (is_along axis) tree.now) start.0 }
    ensures vertex { IsVertex size.now result.0 }
{
    let step = step(size, axis);
    let mut end = Vertex(start.0 + step);
    let mut place = at;
    while let Some(next) = find_behind(tree, place, Edge::along(end, axis), NEAR) {
        end = Vertex(end.0 + step);
        place = next;
    }
    end
}
