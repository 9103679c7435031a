//! Weights that are raised.

ghost use Rattle.std.specs.Prelude.{◌≤◌};
ghost use Rattle.grid_graph.specs.Flat.{AreLeastOver};
ghost use Rattle.grid_graph.specs.Limits.{max_weight};
ghost use Rattle.edge_prices.specs.PieceLists.{IsWeightList};
ghost use Rattle.lower_bound.specs.Raised.{raised};

use grid_base::{Edge, Piece};
use grid_graph::{FlooredWeights, Floors, MAX_WEIGHT, Weights};

/// The pieces of other weights, each weighing so much more: what a wirelength's price adds to each piece.
#[derive(Drop)]
pub struct Extra<W: Weights> {
    weights: W,
    piece: u32,
    ghost listed: { IsWeightList (W.size weights) (raised (W.pieces weights) piece) },
    ghost small: { piece ≤ max_weight },
    ghost under: { AreLeastOver (W.size weights) (raised (W.pieces weights) piece) (λ _. piece) },
}

impl<W: Weights> Extra<W> {
    ghost use Rattle.std.specs.Prelude.{◌≡◌, ◌≤◌};
    ghost use Rattle.edge_prices.specs.Limits.{max_price};
    ghost use Rattle.lower_bound.specs.Raised.{raised, MayBeRaised};

    /// The weights, raised by a price for each piece.
    pub fn new(weights: W, piece: u32) -> Extra<W>
        requires piece { piece ≤ max_price }
        requires weights { MayBeRaised (W.pieces weights) }
        ensures size { W.size result.weights ≡ W.size weights }
        ensures pieces { raised (W.pieces result.weights) result.piece ≡ raised (W.pieces weights) piece }
    {
        Extra { weights, piece }
    }
}

impl<W: Weights> Weights for Extra<W> {
    ghost use Rattle.lower_bound.specs.Raised.{raised};

    ghost size = { λ x. W.size x.weights };

    ghost pieces = { λ x. raised (W.pieces x.weights) x.piece };

    ghost once = { λ x. x.listed.once };

    ghost inside = { λ x. x.listed.inside };

    ghost small = { λ x. x.listed.within };

    fn allows(&self, p: Piece) -> bool {
        self.weights.allows(p)
    }

    fn weight(&self, p: Piece) -> u64 {
        (self.weights.weight(p) + u64::from(self.piece)).min(MAX_WEIGHT)
    }
}

impl<W: Weights> FlooredWeights for Extra<W> {
    ghost over = { λ x _. x.piece };

    ghost under = { λ x. x.under };

    fn floors(&self) -> Floors {
        let floor = u64::from(self.piece);
        Floors {
            along_x: floor,
            along_y: floor,
            via: floor,
        }
    }

    fn least_over(&self, _e: Edge) -> u64 {
        u64::from(self.piece)
    }
}
