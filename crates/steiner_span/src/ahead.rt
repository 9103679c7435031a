//! What is still to go to the nearest terminal outside a tree.

ghost use Rattle.std.specs.Prelude.{refl};

use grid_base::Spot;
use grid_graph::Weights;
use shortest_paths::{Bound, NoBound};

/// A lower bound of what is still to go to the nearest of the terminals that are left, which only grows as they are
/// reached.
pub(crate) trait Ahead: Bound {
    ghost use Rattle.std.specs.Prelude.{◌≡◌, ◌≢◌, ◌≤◌, ℕ};
    ghost use Rattle.grid_base.specs.Spots.{IsSpot};

    ghost left: { Self → ℕ → Type 0 };

    /// Takes a terminal out of those that are left.
    fn reach(&mut self, at: Spot)
        requires { IsSpot (Self.size self.old) at }
        ensures size { Self.size self.new ≡ Self.size self.old }
        ensures pieces { Self.pieces self.new ≡ Self.pieces self.old }
        ensures more { (v : ℕ) → Self.rest self.old v ≤ Self.rest self.new v }
        ensures left { (v : ℕ) → v ≢ at.vertex.0 → left self.old v → left self.new v };

    ghost near: { (x : Self) (v : ℕ) → left x v → Self.rest x v ≡ 0 };
}

impl<'a, W: Weights> Ahead for NoBound<'a, W> {
    ghost left = { λ _ _. Unit {0} };

    ghost near = { λ _ _ _. refl };

    fn reach(&mut self, _at: Spot) {}
}
