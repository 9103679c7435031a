//! A set of pieces.

ghost use Rattle.std.specs.Prelude.{◌≡◌, ◌↔◌, [], Contains, IfOk, IsTrue};
ghost use Rattle.grid_base.specs.declared.piece.Piece.{Piece};
ghost use Rattle.tree_set.specs.Order.{IsRising};

use grid_base::{NoMemory, Piece, PieceSet};
use std::alloc::Global;
use std::marker::Model;

/// A set of pieces, as the strictly rising list of them. It need not join anything, and it may hold cycles.
#[derive(Debug, Drop)]
pub struct Tree {
    pieces: Vec<Piece>,
}

impl Model for Tree {
    ghost use Rattle.std.specs.Prelude.{List};
    ghost use Rattle.grid_base.specs.declared.piece.Piece.{Piece};
    ghost use Rattle.tree_set.specs.Order.{IsRising};

    ghost Value = { List Piece };

    ghost view = { λ t. t.pieces.items };

    ghost invariant = { λ t. IsRising t.pieces.items };
}

impl PieceSet for Tree {
    ghost use Rattle.grid_base.specs.Walks.{InPieces};

    ghost pieces = { InPieces };

    fn allows(&self, p: Piece) -> bool {
        self.contains(p)
    }
}

impl Tree {
    /// The set of the listed pieces, in whatever order and however often each is listed. It takes
    /// no memory beyond the list that it is given, and gives back what of that is room for more.
    pub fn of(mut pieces: Vec<Piece>) -> Tree
        ensures rising { IsRising result }
        ensures same { (p : Piece) → Contains result p ↔ Contains pieces.items p }
    {
        pieces.sort_unstable();
        pieces.dedup();
        pieces.shrink_to_fit();
        Tree { pieces }
    }

    /// The set without a piece.
    pub fn empty(alloc: Global) -> Tree
        ensures none { result ≡ [] }
    {
        Tree {
            pieces: Vec::new(alloc),
        }
    }

    /// The pieces of the set, all edges by number and then all vias by number.
    pub fn pieces(&self) -> &[Piece]
        ensures listed { result.now ≡ self.now }
        ensures rising { IsRising self.now }
    {
        &self.pieces
    }

    /// Whether the piece is in the set. It takes about the logarithm of the set's size in steps.
    pub fn contains(&self, piece: Piece) -> bool
        ensures member { IsTrue result ↔ Contains self.now piece }
    {
        self.pieces.as_slice().binary_search(&piece).is_ok()
    }

    /// The same set once more.
    pub fn copy(&self) -> Result<Tree, NoMemory>
        ensures same { IfOk result (λ copied. copied ≡ self.now) }
    {
        Ok(Tree {
            pieces: self.pieces.clone()?,
        })
    }
}
