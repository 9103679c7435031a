//! What is still to go from a vertex.

use grid_base::{Place, Vertex};

/// A lower bound of what is still to go from each vertex, which no allowed piece lets fall by more than its weight. A
/// search takes the vertices in the order of their number and this bound together, so a good bound leads it to its goal.
pub trait Bound {
    ghost use Rattle.std.specs.Prelude.{◌≡◌, ◌≤◌, ℕ, List};
    ghost use Rattle.grid_base.specs.declared.piece.Piece.{Piece};
    ghost use Rattle.grid_base.specs.declared.size.Size.{Size};
    ghost use Rattle.grid_base.specs.Numbers.{IsVertex, place_at};
    ghost use Rattle.label_search.specs.Sets.{RisesSlowly};
    ghost use Rattle.label_search.specs.Stamped.{far};

    ghost size: { Self → Size };

    ghost pieces: { Self → List (Piece × ℕ) };

    ghost rest: { Self → ℕ → ℕ };

    /// The bound at a vertex, which stands at this place.
    fn rest(&self, v: Vertex, place: Place) -> u64
        requires vertex { IsVertex (size self.now) v.0 }
        requires place { place ≡ place_at (size self.now) v.0 }
        ensures value { result ≡ rest self.now v.0 }
        ensures limit { result ≤ far };

    ghost slow: { (x : Self) → RisesSlowly (size x) (pieces x) (rest x) };
}
