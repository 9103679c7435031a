//! Lower bounds for sets of terminals.

use grid_base::{Place, Vertex};

/// A lower bound for each set of terminals and each vertex, of what joins them: numbers of a table that holds. A search
/// for the trees of some terminals leaves out what is too heavy together with the bound for the others.
pub trait Family {
    ghost use Rattle.std.specs.Prelude.{◌≡◌, ◌<◌, ◌≤◌, ℕ, List};
    ghost use Rattle.grid_base.specs.declared.piece.Piece.{Piece};
    ghost use Rattle.grid_base.specs.declared.size.Size.{Size};
    ghost use Rattle.grid_base.specs.declared.vertex.Vertex.{Vertex as Terminal};
    ghost use Rattle.grid_base.specs.Numbers.{IsVertex, place_at};
    ghost use Rattle.steiner_tables.specs.Masks.{all_of};
    ghost use Rattle.label_search.specs.Stamped.{far};
    ghost use Rattle.steiner_tables.specs.Tables.{IsFamily};

    ghost size: { Self → Size };

    ghost pieces: { Self → List (Piece × ℕ) };

    ghost terminals: { Self → List Terminal };

    ghost low: { Self → ℕ → ℕ → ℕ };

    /// The bound for the terminals of a mask at a vertex, which stands at this place.
    fn low(&self, mask: u32, v: Vertex, place: Place) -> u64
        requires some { 0 < mask }
        requires mask { mask < all_of (terminals self.now) }
        requires vertex { IsVertex (size self.now) v.0 }
        requires place { place ≡ place_at (size self.now) v.0 }
        ensures value { result ≡ low self.now mask v.0 }
        ensures limit { result ≤ far };

    ghost holds: { (x : Self) → IsFamily (size x) (pieces x) (terminals x) (low x) };
}
