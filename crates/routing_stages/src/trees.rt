//! Sets for nets.

ghost use Rattle.std.specs.Prelude.{◌≡◌, ◌<◌, [], length, slice_index_or, slice_set};

use std::marker::Model;
use std::mem::swap;
use tree_set::Tree;

/// One set for each net, in the order of the nets.
#[derive(Debug, Drop)]
pub struct Trees {
    trees: Vec<Tree>,
}

impl Model for Trees {
    ghost use Rattle.std.specs.Prelude.{List};
    ghost use Rattle.grid_base.specs.declared.piece.Piece.{Piece};

    ghost Value = { List (List Piece) };

    ghost view = { λ s. s.trees.items };
}

impl Trees {
    /// These sets.
    pub fn of(trees: Vec<Tree>) -> Trees
        ensures { result ≡ trees.items }
    {
        Trees { trees }
    }

    /// The sets.
    pub fn list(&self) -> &[Tree]
        ensures { result.now ≡ self.now }
    {
        self.trees.as_slice()
    }

    /// The sets, taken out.
    pub fn into_list(self) -> Vec<Tree>
        ensures { result.items ≡ self }
    {
        self.trees
    }

    /// Exchanges the set of the net at a position with the one that it has among others. No set is copied.
    pub fn exchange(&mut self, other: &mut Trees, position: usize)
        requires position { (position < length self.old) × (position < length other.old) }
        ensures own { self.new ≡ slice_set self.old position (slice_index_or other.old position []) }
        ensures other { other.new ≡ slice_set other.old position (slice_index_or self.old position []) }
    {
        swap(&mut self.trees[position], &mut other.trees[position]);
    }
}
