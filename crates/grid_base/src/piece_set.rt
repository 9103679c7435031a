//! Sets of pieces that can be asked.

use crate::piece::Piece;

/// A set of pieces that tells which ones it has.
pub trait PieceSet {
    ghost use Rattle.std.specs.Prelude.{◌↔◌, IsTrue};
    ghost use Rattle.grid_base.specs.declared.piece.Piece.{Piece};

    ghost pieces: { Self → Piece → Type 0 };

    /// Whether the piece is in the set.
    fn allows(&self, p: Piece) -> bool
        ensures { IsTrue result ↔ pieces self.now p };
}
