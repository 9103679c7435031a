//! Copies of sets.

ghost use Rattle.std.specs.Prelude.{◌≡◌, IfOk};

use grid_base::NoMemory;
use std::alloc::Global;
use tree_set::Tree;

/// Copies of the sets.
pub(crate) fn copies_of(alloc: Global, trees: &[Tree]) -> Result<Vec<Tree>, NoMemory>
    ensures { IfOk result (λ copies. copies.items ≡ trees.now) }
{
    let mut copies = Vec::with_capacity(alloc, trees.len())?;
    for tree in trees {
        copies.push(tree.copy()?)?;
    }
    Ok(copies)
}
