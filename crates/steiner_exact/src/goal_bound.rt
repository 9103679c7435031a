//! What is still to go to a goal, by a bound of the flat grid.

ghost use Rattle.std.specs.Prelude.{◌≡◌, ◌≤◌, ◌<◌};
ghost use Rattle.grid_graph.specs.Flat.{IsFlatOf};
ghost use Rattle.grid_graph.specs.Limits.{max_weight};
ghost use Rattle.label_search.specs.Sets.{RisesSlowly};
ghost use Rattle.steiner_exact.specs.GoalRests.{rest_to};

use grid_base::{Place, Size, Vertex};
use grid_graph::FlooredWeights;
use label_search::FAR;
use shortest_paths::Bound;

/// What is still to go across tiles, by a bound of the flat grid, and each layer to go at the floor of vias.
#[derive(Drop)]
pub struct GoalBound<'a, W: FlooredWeights, B: Bound> {
    weights: &'a W,
    size: Size,
    layer: u32,
    across: &'a B,
    via: u64,
    ghost tiled: { IsFlatOf (B.size across.now) size },
    ghost low_layer: { layer < 16 },
    ghost low_via: { via ≤ max_weight },
    ghost slow: { RisesSlowly size (W.pieces weights.now) (rest_to size layer via (B.rest across.now)) },
}

impl<'a, W: FlooredWeights, B: Bound> GoalBound<'a, W, B> {
    ghost use Rattle.std.specs.Prelude.{◌≡◌};
    ghost use Rattle.grid_base.specs.Numbers.{IsVertex, layer_of};
    ghost use Rattle.grid_graph.specs.Flat.{IsFlatOf};
    ghost use Rattle.steiner_exact.specs.FlatPieces.{edges_with};

    /// The bound on a grid of this size by one of its flat grid, where each edge between tiles weighs the least that edges
    /// over it do. Of the goal its layer alone is taken; `across` should lead to its tile.
    pub fn new(weights: &'a W, size: Size, goal: Vertex, across: &'a B) -> GoalBound<'a, W, B>
        requires size { size ≡ W.size weights.now }
        requires goal { IsVertex size goal.0 }
        requires tiled { IsFlatOf (B.size across.now) size }
        requires across { B.pieces across.now ≡ edges_with (B.size across.now) (W.over weights.now) }
        ensures weights { result.weights.now ≡ weights.now }
        ensures size { result.size ≡ size }
        ensures layer { result.layer ≡ layer_of size goal.0 }
        ensures across { result.across.now ≡ across.now }
    {
        GoalBound {
            weights,
            size,
            layer: size.place_of(goal).layer,
            across,
            via: weights.floors().via,
        }
    }
}

impl<W: FlooredWeights, B: Bound> Bound for GoalBound<'_, W, B> {
    ghost use Rattle.steiner_exact.specs.GoalRests.{rest_to};

    ghost size = { λ x. x.size };

    ghost pieces = { λ x. W.pieces x.weights.now };

    ghost rest = { λ x. rest_to x.size x.layer x.via (B.rest x.across.now) };

    ghost slow = { λ x. x.slow };

    fn rest(&self, _v: Vertex, place: Place) -> u64 {
        let tile = Vertex(place.row * self.size.cols() + place.col);
        let ground = Place {
            col: place.col,
            row: place.row,
            layer: 0,
        };
        let layers = u64::from(place.layer.abs_diff(self.layer));
        (self.across.rest(tile, ground) + layers * self.via).min(FAR)
    }
}
