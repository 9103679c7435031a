//! A bound by the grid distance.

ghost use Rattle.std.specs.Prelude.{◌≡◌, ◌≤◌, min};
ghost use Rattle.grid_base.specs.Numbers.{IsInside};
ghost use Rattle.grid_graph.specs.Limits.{max_weight};
ghost use Rattle.label_search.specs.Floors.{floor_rest};
ghost use Rattle.label_search.specs.Sets.{RisesSlowly};

use crate::bound::Bound;
use crate::grid_distances::apart;
use grid_base::{Place, Size, Vertex};
use grid_graph::{Floors, MAX_WEIGHT, Weights};

/// The grid distance to a goal, where each step weighs at least the floor of its direction.
#[derive(Drop)]
pub struct FloorBound<'a, W: Weights> {
    pub weights: &'a W,
    size: Size,
    goal: Place,
    floors: Floors,
    pub ghost sized: { size ≡ W.size weights.now },
    pub ghost inside: { IsInside size goal },
    pub ghost low_x: { floors.along_x ≤ max_weight },
    pub ghost low_y: { floors.along_y ≤ max_weight },
    pub ghost low_via: { floors.via ≤ max_weight },
    pub ghost slow: { RisesSlowly size (W.pieces weights.now) (floor_rest size floors goal) },
}

impl<'a, W: Weights> FloorBound<'a, W> {
    ghost use Rattle.std.specs.Prelude.{◌≡◌, ◌≤◌, ◌^◌, ℕ};
    ghost use Rattle.grid_base.specs.Numbers.{IsVertex, IsInside, place_at};
    ghost use Rattle.grid_graph.specs.Floors.{AreFloors};
    ghost use Rattle.label_search.specs.Floors.{floor_distance};

    /// What is still to go to this goal, by floors of the weights. A floor above the greatest weight counts as that one.
    pub fn new(weights: &'a W, size: Size, goal: Vertex, floors: Floors) -> FloorBound<'a, W>
        requires size { size ≡ W.size weights.now }
        requires goal { IsVertex size goal.0 }
        requires floors { AreFloors floors (W.pieces weights.now) }
        ensures weights { result.weights.now ≡ weights.now }
        ensures rest { floors.along_x ≤ max_weight → floors.along_y ≤ max_weight → floors.via ≤ max_weight → (v : ℕ)
            → IsVertex size v → ⟦<FloorBound<'a, W> as Bound>⟧.rest result v
            ≡ floor_distance floors (place_at size v) (place_at size goal.0) }
    {
        FloorBound {
            weights,
            size,
            goal: size.place_of(goal),
            floors: lowered(floors),
        }
    }
}

/// Floors of which none is above the greatest weight.
fn lowered(floors: Floors) -> Floors
    ensures x { result.along_x ≡ min floors.along_x max_weight }
    ensures y { result.along_y ≡ min floors.along_y max_weight }
    ensures via { result.via ≡ min floors.via max_weight }
{
    Floors {
        along_x: floors.along_x.min(MAX_WEIGHT),
        along_y: floors.along_y.min(MAX_WEIGHT),
        via: floors.via.min(MAX_WEIGHT),
    }
}

impl<'a, W: Weights> Bound for FloorBound<'a, W> {
    ghost use Rattle.label_search.specs.Floors.{floor_rest};

    ghost size = { λ x. x.size };

    ghost pieces = { λ x. W.pieces x.weights.now };

    ghost rest = { λ x. floor_rest x.size x.floors x.goal };

    ghost slow = { λ x. x.slow };

    fn rest(&self, _v: Vertex, place: Place) -> u64 {
        apart(self.size, self.floors, place, self.goal)
    }
}
