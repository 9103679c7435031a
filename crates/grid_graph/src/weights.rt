//! What a search may use, and at what weight.

use grid_base::Piece;

/// What a search may use: a finite list of allowed pieces with their weights.
pub trait Weights {
    ghost use Rattle.std.specs.Prelude.{◌≡◌, ◌↔◌, ◌≤◌, ℕ, List, IsTrue};
    ghost use Rattle.grid_base.specs.declared.piece.Piece.{Piece};
    ghost use Rattle.grid_base.specs.declared.size.Size.{Size};
    ghost use Rattle.grid_graph.specs.Limits.{max_weight};
    ghost use Rattle.grid_graph.specs.Weighed.{Weighs, IsAllowed, NoPieceTwice, WeighsOnlyPieces, AreWithinLimit};

    ghost size: { Self → Size };

    ghost pieces: { Self → List (Piece × ℕ) };

    /// Whether the piece is in the list.
    fn allows(&self, p: Piece) -> bool
        ensures { IsTrue result ↔ IsAllowed (pieces self.now) p };

    /// The piece's weight. Of one that isn't allowed it is any number up to `MAX_WEIGHT`.
    fn weight(&self, p: Piece) -> u64
        ensures value { (weight : ℕ) → Weighs (pieces self.now) p weight → result ≡ weight }
        ensures limit { result ≤ max_weight };

    ghost once: { (x : Self) → NoPieceTwice (pieces x) };

    ghost inside: { (x : Self) → WeighsOnlyPieces (size x) (pieces x) };

    ghost small: { (x : Self) → AreWithinLimit (pieces x) };
}
