//! Raised weights that are led by what tile edges cost at least.

ghost use Rattle.std.specs.Prelude.{◌≡◌, ◌≤◌};
ghost use Rattle.grid_graph.specs.Flat.{AreLeastOver, tiles};
ghost use Rattle.grid_graph.specs.Limits.{max_weight};
ghost use Rattle.edge_prices.specs.PieceLists.{IsWeightList};
ghost use Rattle.lower_bound.specs.LedWeights.{led_over};
ghost use Rattle.lower_bound.specs.Raised.{raised};

use crate::tile_costs::TileCosts;
use grid_base::{Edge, Piece};
use grid_graph::{FlooredWeights, Floors, MAX_WEIGHT, Weights};

/// The pieces of other weights, each weighing so much more, with the costs of tile edges under them. A search is led by these
/// costs, where `Extra` knows of what is added alone.
#[derive(Drop)]
pub(crate) struct Led<'a, W: Weights> {
    weights: W,
    extra: u32,
    costs: &'a TileCosts,
    ghost listed: { IsWeightList (W.size weights) (raised (W.pieces weights) extra) },
    ghost small: { extra ≤ max_weight },
    ghost flat: { tiles costs.now.size ≡ tiles (W.size weights) },
    ghost under: { AreLeastOver (W.size weights) (raised (W.pieces weights) extra) (led_over costs.now.costs.items extra) },
}

impl<'a, W: Weights> Led<'a, W> {
    ghost use Rattle.std.specs.Prelude.{◌≡◌, ◌≤◌};
    ghost use Rattle.edge_prices.specs.Limits.{max_price};
    ghost use Rattle.grid_graph.specs.Flat.{tiles};
    ghost use Rattle.grid_graph.specs.TilePieces.{AreLeastBetweenTiles};
    ghost use Rattle.lower_bound.specs.Raised.{raised, MayBeRaised};
    ghost use Rattle.lower_bound.specs.TileCosts.{costs_between};

    /// The weights, raised by so much. The costs are those of the weights themselves.
    pub(crate) fn new(weights: W, extra: u32, costs: &'a TileCosts) -> Led<'a, W>
        requires extra { extra ≤ max_price }
        requires weights { MayBeRaised (W.pieces weights) }
        requires flat { tiles costs.now.size ≡ tiles (W.size weights) }
        requires between { AreLeastBetweenTiles (W.size weights) (W.pieces weights) (costs_between costs.now.costs.items) }
        ensures size { W.size result.weights ≡ W.size weights }
        ensures pieces { raised (W.pieces result.weights) result.extra ≡ raised (W.pieces weights) extra }
    {
        Led {
            weights,
            extra,
            costs,
        }
    }
}

impl<W: Weights> Weights for Led<'_, W> {
    ghost use Rattle.lower_bound.specs.Raised.{raised};

    ghost size = { λ x. W.size x.weights };

    ghost pieces = { λ x. raised (W.pieces x.weights) x.extra };

    ghost once = { λ x. x.listed.once };

    ghost inside = { λ x. x.listed.inside };

    ghost small = { λ x. x.listed.within };

    fn allows(&self, p: Piece) -> bool {
        self.weights.allows(p)
    }

    fn weight(&self, p: Piece) -> u64 {
        (self.weights.weight(p) + u64::from(self.extra)).min(MAX_WEIGHT)
    }
}

impl<W: Weights> FlooredWeights for Led<'_, W> {
    ghost use Rattle.lower_bound.specs.LedWeights.{led_over};

    ghost over = { λ x. led_over x.costs.now.costs.items x.extra };

    ghost under = { λ x. x.under };

    fn floors(&self) -> Floors {
        let extra = u64::from(self.extra);
        let floors = self.costs.floors();
        Floors {
            along_x: (floors.along_x + extra).min(MAX_WEIGHT),
            along_y: (floors.along_y + extra).min(MAX_WEIGHT),
            via: extra,
        }
    }

    fn least_over(&self, e: Edge) -> u64 {
        (self.costs.least_over(e) + u64::from(self.extra)).min(MAX_WEIGHT)
    }
}
