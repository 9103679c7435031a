//! A bound by the grid distance to the nearest of some terminals.

ghost use Rattle.std.specs.Prelude.{◌≡◌, ◌<◌, ◌≤◌, ℕ, All, IfSome, length, get_or};
ghost use Rattle.grid_base.specs.Numbers.{IsInside};
ghost use Rattle.grid_graph.specs.Floors.{AreFloors, AreWithin};
ghost use Rattle.steiner_span.specs.Aheads.{least_rest, StandsIn};
ghost use Rattle.label_search.specs.Sets.{RisesSlowly};

use crate::ahead::Ahead;
use grid_base::{NoMemory, Place, Size, Spot, Vertex};
use grid_graph::{Floors, Weights};
use shortest_paths::{Bound, apart};
use std::alloc::Global;

/// Above each distance of two places.
const FAR: u64 = 1 << 61;

/// The grid distance to the nearest of the places that are left, where each step weighs at least the floor of its
/// direction.
#[derive(Drop)]
pub(crate) struct Nearest<'a, W: Weights> {
    pub weights: &'a W,
    size: Size,
    floors: Floors,
    left: Vec<Place>,
    pub ghost sized: { size ≡ W.size weights.now },
    pub ghost within: { AreWithin floors },
    pub ghost inside: { All (IsInside size) left.items },
    pub ghost below: { AreFloors floors (W.pieces weights.now) },
    pub ghost near: { (v : ℕ) → StandsIn size left.items v → least_rest size floors left.items v ≡ 0 },
    pub ghost slow: { RisesSlowly size (W.pieces weights.now) (least_rest size floors left.items) },
}

impl<'a, W: Weights> Nearest<'a, W> {
    ghost use Rattle.std.specs.Prelude.{◌≡◌, ℕ, IfOk, All};
    ghost use Rattle.grid_base.specs.Numbers.{IsVertex};
    ghost use Rattle.grid_base.specs.Walks.{InVertices};
    ghost use Rattle.grid_graph.specs.Floors.{AreFloors, AreWithin};
    ghost use Rattle.steiner_span.specs.Aheads.{StandsIn};

    /// What is still to go to the nearest of the terminals.
    pub(crate) fn new(
        alloc: Global,
        weights: &'a W,
        size: Size,
        floors: Floors,
        terminals: &[Vertex],
    ) -> Result<Nearest<'a, W>, NoMemory>
        requires size { size ≡ W.size weights.now }
        requires within { AreWithin floors }
        requires floors { AreFloors floors (W.pieces weights.now) }
        requires terminals { All (λ v. IsVertex size v.0) terminals.now }
        ensures size { IfOk result (λ x. x.size ≡ size) }
        ensures pieces { IfOk result (λ x. W.pieces x.weights.now ≡ W.pieces weights.now) }
        ensures left { IfOk result (λ x. (v : ℕ) → InVertices terminals.now v → StandsIn x.size x.left.items v) }
    {
        let mut left = Vec::new(alloc);
        for terminal in terminals {
            left.push(size.place_of(*terminal))?;
        }
        Ok(Nearest {
            weights,
            size,
            floors,
            left,
        })
    }
}

impl<'a, W: Weights> Bound for Nearest<'a, W> {
    ghost use Rattle.steiner_span.specs.Aheads.{least_rest};

    ghost size = { λ x. x.size };

    ghost pieces = { λ x. W.pieces x.weights.now };

    ghost rest = { λ x. least_rest x.size x.floors x.left.items };

    ghost slow = { λ x. x.slow };

    fn rest(&self, _v: Vertex, place: Place) -> u64 {
        let mut least = FAR;
        for goal in &self.left {
            least = least.min(apart(self.size, self.floors, place, *goal));
        }
        least
    }
}

impl<'a, W: Weights> Ahead for Nearest<'a, W> {
    ghost use Rattle.steiner_span.specs.Aheads.{StandsIn};

    ghost left = { λ x v. StandsIn x.size x.left.items v };

    ghost near = { λ x. x.near };

    fn reach(&mut self, at: Spot) {
        if let Some(i) = index_of(self.left.as_slice(), at.place) {
            self.left.remove(i);
        }
    }
}

/// Where a place stands in a list.
fn index_of(places: &[Place], place: Place) -> Option<usize>
    ensures { IfSome result (λ i. (i < length places.now) × (get_or places.now i place ≡ place)) }
{
    for i in 0..places.len() {
        if places[i] == place {
            return Some(i);
        }
    }
    None
}
