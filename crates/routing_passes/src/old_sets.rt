//! The old sets of the nets of a pass.

ghost use Rattle.std.specs.Prelude.{◌≡◌, ◌≤◌, ◌<◌, length, slice_range, All, IfOk};
ghost use Rattle.sharing_runs.specs.RepairRuns.{at_positions};

use grid_base::NoMemory;
use std::alloc::Global;
use tree_set::Tree;

/// The sets of the nets at these positions from one place up to another, once more.
pub(crate) fn copies(
    alloc: Global,
    trees: &[Tree],
    positions: &[u32],
    from: usize,
    to: usize,
) -> Result<Vec<Tree>, NoMemory>
    requires positions { All (λ position. position < length trees.now) positions.now }
    requires range { (from ≤ to) × (to ≤ length positions.now) }
    ensures sets { IfOk result (λ sets. sets.items ≡ slice_range (at_positions trees.now positions.now) from to) }
{
    let mut sets = Vec::new(alloc);
    for i in from..to {
        sets.push(trees[positions[i] as usize].copy()?)?;
    }
    Ok(sets)
}
