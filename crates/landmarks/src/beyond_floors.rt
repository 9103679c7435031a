//! What pieces weigh beyond floors.

ghost use Rattle.edge_prices.specs.PieceLists.{IsWeightList};
ghost use Rattle.landmarks.specs.Numbers.{lowered};

use grid_base::{Axis, Piece};
use grid_graph::{Floors, Weights};

/// The pieces of other weights, each with what it weighs beyond the floor of its direction.
#[derive(Drop)]
pub(crate) struct BeyondFloors<'a, W: Weights> {
    weights: &'a W,
    floors: Floors,
    ghost listed: { IsWeightList (W.size weights.now) (lowered (W.pieces weights.now) floors) },
}

impl<'a, W: Weights> BeyondFloors<'a, W> {
    ghost use Rattle.std.specs.Prelude.{◌≡◌};
    ghost use Rattle.grid_graph.specs.Floors.{floor_of};

    /// What the pieces weigh beyond these floors; nothing where a piece weighs less.
    pub(crate) fn new(weights: &'a W, floors: Floors) -> BeyondFloors<'a, W>
        ensures weights { result.weights.now ≡ weights.now }
        ensures floors { result.floors ≡ floors }
    {
        BeyondFloors { weights, floors }
    }

    /// The floor of a piece.
    fn floor(&self, p: Piece) -> u64
        ensures { result ≡ floor_of self.now.floors p }
    {
        match p {
            Piece::Edge(e) => match e.axis() {
                Axis::X => self.floors.along_x,
                Axis::Y => self.floors.along_y,
            },
            Piece::Via(_) => self.floors.via,
        }
    }
}

impl<W: Weights> Weights for BeyondFloors<'_, W> {
    ghost use Rattle.landmarks.specs.Numbers.{lowered};

    ghost size = { λ x. W.size x.weights.now };

    ghost pieces = { λ x. lowered (W.pieces x.weights.now) x.floors };

    ghost once = { λ x. x.listed.once };

    ghost inside = { λ x. x.listed.inside };

    ghost small = { λ x. x.listed.within };

    fn allows(&self, p: Piece) -> bool {
        self.weights.allows(p)
    }

    fn weight(&self, p: Piece) -> u64 {
        self.weights.weight(p).saturating_sub(self.floor(p))
    }
}
