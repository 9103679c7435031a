//! Laws of lower bounds: each is the contract of a call that does nothing.

ghost use Rattle.std.specs.Prelude.{ℕ, ◌≤◌, List, sum, length};
ghost use Rattle.grid_base.specs.declared.piece.Piece.{Piece};
ghost use Rattle.grid_base.specs.Walks.{Joins, InVertices};
ghost use Rattle.grid_graph.specs.Weighed.{IsAllowed, WeighsOnlyPieces};
ghost use Rattle.label_search.specs.Sets.{IsSetOf, weight};
ghost use Rattle.lower_bound.specs.Moats.{AreMoats};
ghost use Rattle.lower_bound.specs.NetBounds.{IsNetBound};

use grid_base::{Size, Vertex};

/// Where moats hold around two or more terminals, the sum of their radii is at most the weight of every set of allowed
/// pieces that joins the terminals, cycles and loose pieces included.
pub fn moats_bound_sets(size: &Size, terminals: &[Vertex])
    ensures { (pieces : List (Piece × ℕ)) (radii : List ℕ) (set : List (Piece × ℕ))
        → WeighsOnlyPieces size.now pieces → AreMoats size.now pieces terminals.now radii → 2 ≤ length terminals.now
        → IsSetOf pieces set → Joins size.now (IsAllowed set) (InVertices terminals.now) → sum radii ≤ weight set }
{}

/// A net bound is at most the cost of every subset of the net's ground that joins its terminals.
pub fn net_bounds_are_low(size: &Size, terminals: &[Vertex])
    ensures { (pieces : List (Piece × ℕ)) (bound : ℕ) (set : List (Piece × ℕ))
        → WeighsOnlyPieces size.now pieces → IsNetBound size.now pieces terminals.now bound → IsSetOf pieces set
        → Joins size.now (IsAllowed set) (InVertices terminals.now) → bound ≤ weight set }
{}
