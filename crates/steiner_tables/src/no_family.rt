//! A family that knows nothing.

use crate::family::Family;
use grid_base::{Place, Vertex};
use grid_graph::Weights;

/// No lower bounds: 0 for each set of terminals.
#[derive(Drop)]
pub struct NoFamily<'a, W: Weights> {
    pub weights: &'a W,
    pub terminals: &'a [Vertex],
}

impl<'a, W: Weights> Family for NoFamily<'a, W> {
    ghost use Rattle.steiner_tables.specs.NoFamilies.{nothing_holds};

    ghost size = { λ x. W.size x.weights.now };

    ghost pieces = { λ x. W.pieces x.weights.now };

    ghost terminals = { λ x. x.terminals.now };

    ghost low = { λ _ _ _. 0 };

    ghost holds = { λ x. nothing_holds (W.size x.weights.now) (W.pieces x.weights.now) x.terminals.now };

    fn low(&self, _mask: u32, _v: Vertex, _place: Place) -> u64 {
        0
    }
}
