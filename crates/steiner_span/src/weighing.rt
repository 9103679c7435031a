//! What a tree weighs.

ghost use Rattle.std.specs.Prelude.{◌≡◌, ℕ, List, map};
ghost use Rattle.grid_base.specs.declared.piece.Piece.{Piece};
ghost use Rattle.grid_base.specs.Walks.{InPieces};
ghost use Rattle.grid_graph.specs.Weighed.{IsAllowed};
ghost use Rattle.label_search.specs.Sets.{IsSetOf, weight};
ghost use Rattle.tree_set.specs.Order.{IsRising};

use grid_base::Piece;
use grid_graph::Weights;

/// The sum of the weights of a tree's pieces.
pub(crate) fn weight_of<W: Weights>(weights: &W, tree: &[Piece]) -> u64
    requires rising { IsRising tree.now }
    requires allowed { (p : Piece) → InPieces tree.now p → IsAllowed (W.pieces weights.now) p }
    ensures { (set : List (Piece × ℕ)) → map (λ x. x.0) set ≡ tree.now → IsSetOf (W.pieces weights.now) set → result ≡ weight set }
{
    let mut sum = 0;
    for piece in tree {
        sum += weights.weight(*piece);
    }
    sum
}
