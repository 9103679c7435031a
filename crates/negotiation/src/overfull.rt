//! Nets on overfull edges.

ghost use Rattle.std.specs.Prelude.{◌≡◌, ◌↔◌, ◌<◌, Any, IsTrue, List, length, slice_index_or};
ghost use Rattle.grid_base.specs.declared.piece.Piece.{Piece as PieceOf};
ghost use Rattle.tree_set.specs.Loads.{load};
ghost use Rattle.routing_state.specs.Overfull.{HoldsOverfull};
ghost use Rattle.routing_state.specs.States.{IsStateOf, trees_of};
ghost use Rattle.negotiation.specs.Lacking.{IsLacking};

use grid_base::Piece;
use grid_graph::Design;
use routing_state::RoutingState;
use tree_set::Tree;

/// Whether the net's set holds an overfull edge. Hardly any does, and the narrow rooms tell that in a quarter of the bytes.
pub(crate) fn holds_overfull(design: &Design, state: &RoutingState, net: usize) -> bool
    requires state { IsStateOf design.now state.now }
    requires net { net < length design.now.nets }
    ensures { (tree : List PieceOf) → tree ≡ slice_index_or (trees_of state.now) net tree
        → IsTrue result ↔ HoldsOverfull design.now.grid (load design.now.grid design.now.nets (trees_of state.now)) tree }
{
    may_lack(state.narrow_rooms(), &state.trees()[net]) && state.holds_overfull(design, net)
}

/// Whether room is lacking on an edge of a set, be it choked or open.
fn may_lack(rooms: &[i16], tree: &Tree) -> bool
    ensures { IsTrue result ↔ Any (IsLacking rooms.now) tree.now }
{
    tree.pieces().iter().any(|p| lacks(rooms, *p))
}

/// Whether room is lacking on a piece.
fn lacks(rooms: &[i16], p: Piece) -> bool
    ensures { IsTrue result ↔ IsLacking rooms.now p }
{
    match p {
        Piece::Edge(e) => (e.0 as usize) < rooms.len() && rooms[e.0 as usize] < 0,
        Piece::Via(_) => false,
    }
}
