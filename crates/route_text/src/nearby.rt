//! Edges looked for near a place in the list of a set.

ghost use Rattle.std.specs.Prelude.{◌≡◌, ◌<◌, ◌+◌, ◌↔◌, Contains, IfNone, IfSome, IsTrue, length, slice_index_or};
ghost use Rattle.grid_base.specs.declared.piece.Piece.{Piece};
ghost use Rattle.grid_base.specs.declared.piece.Piece.TheVariants as variant;
ghost use Rattle.route_text.specs.Standing.{IsBelow, IsBehind, IsNumbered};

use grid_base::{Edge, Piece};
use tree_set::Tree;

/// Whether the piece is an edge of a smaller number.
fn is_below(piece: Piece, edge: Edge) -> bool
    ensures { IsTrue result ↔ IsBelow edge.0 piece }
{
    match piece {
        Piece::Edge(other) => other.0 < edge.0,
        Piece::Via(_) => false,
    }
}

/// Whether the piece is a via or an edge of a greater number.
fn is_behind(piece: Piece, edge: Edge) -> bool
    ensures { IsTrue result ↔ IsBehind edge.0 piece }
{
    match piece {
        Piece::Edge(other) => other.0 > edge.0,
        Piece::Via(_) => true,
    }
}

/// Whether the piece is this edge.
fn is_edge(piece: Piece, edge: Edge) -> bool
    ensures { IsTrue result ↔ IsNumbered edge.0 piece }
{
    match piece {
        Piece::Edge(other) => other.0 == edge.0,
        Piece::Via(_) => false,
    }
}

/// Whether the set holds the edge, which comes before the piece at this place. So many places before it are looked at, before the
/// whole set is searched.
pub(crate) fn holds_before(tree: &Tree, at: usize, edge: Edge, turns: u32) -> bool
    requires within { at < length tree.now }
    requires behind { (other : Piece) → IsBehind edge.0 (slice_index_or tree.now at other) }
    ensures { IsTrue result ↔ Contains tree.now (variant.Edge edge) }
{
    let pieces = tree.pieces();
    if at == 0 {
        return false;
    }
    if turns == 0 {
        return tree.contains(Piece::Edge(edge));
    }
    let near = pieces[at - 1];
    if is_behind(near, edge) {
        return holds_before(tree, at - 1, edge, turns - 1);
    }
    is_edge(near, edge)
}

/// A place of the set up to that of the edge, which comes behind the piece at this place, where the set holds the edge. So many
/// places behind it are looked at, before the whole set is searched.
pub(crate) fn find_behind(tree: &Tree, at: usize, edge: Edge, turns: u32) -> Option<usize>
    requires within { at < length tree.now }
    requires below { (other : Piece) → IsBelow edge.0 (slice_index_or tree.now at other) }
    ensures held { IfSome result (λ _. Contains tree.now (variant.Edge edge)) }
    ensures within { IfSome result (λ place. place < length tree.now) }
    ensures up_to { IfSome result (λ place. (other : Piece) → IsBelow (edge.0 + 1) (slice_index_or tree.now place other)) }
    ensures missing { IfNone result (¬ Contains tree.now (variant.Edge edge)) }
{
    let pieces = tree.pieces();
    if at + 1 == pieces.len() {
        return None;
    }
    if turns == 0 {
        if tree.contains(Piece::Edge(edge)) {
            return Some(at);
        }
        return None;
    }
    let near = pieces[at + 1];
    if is_below(near, edge) {
        return find_behind(tree, at + 1, edge, turns - 1);
    }
    if is_edge(near, edge) {
        return Some(at + 1);
    }
    None
}
