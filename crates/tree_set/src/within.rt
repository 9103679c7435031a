//! Whether a set of pieces keeps to a ground.

ghost use Rattle.std.specs.Prelude.{◌↔◌, IsTrue};
ghost use Rattle.tree_set.specs.Routings.{KeepsTo};

use crate::tree::Tree;
use grid_graph::{Grid, Ground};

/// Whether the ground allows every piece of the set. Numbers that belong to no piece are never allowed.
pub fn inside(grid: &Grid, over: Ground, tree: &Tree) -> bool
    ensures { IsTrue result ↔ KeepsTo grid.now over tree.now }
{
    tree.pieces().iter().all(|p| grid.allows(over, *p))
}
