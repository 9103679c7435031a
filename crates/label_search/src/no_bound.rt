//! A bound that knows nothing.

ghost use Rattle.std.proofs.Common.{rules};

use crate::bound::Bound;
use grid_base::{Place, Vertex};
use grid_graph::Weights;

/// No bound: nothing is known of what is still to go.
#[derive(Drop)]
pub struct NoBound<'a, W: Weights> {
    pub weights: &'a W,
}

impl<'a, W: Weights> Bound for NoBound<'a, W> {
    ghost size = { λ x. W.size x.weights.now };

    ghost pieces = { λ x. W.pieces x.weights.now };

    ghost rest = { λ _ _. 0 };

    ghost slow = { λ x p k a b weighs connects. Prim.search rules };

    fn rest(&self, _v: Vertex, _place: Place) -> u64 {
        0
    }
}
