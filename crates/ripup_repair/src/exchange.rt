//! Sets of some nets in exchange for others.

ghost use Rattle.std.specs.Prelude.{◌≡◌, ◌<◌, length, All, AllPairs};
ghost use Rattle.sharing_runs.specs.RepairRuns.{at_positions};
ghost use Rattle.ripup_repair.specs.Exchanged.{with_elements};

use std::mem::swap;
use tree_set::Tree;

/// The nets at these positions get these sets, in exchange for those that they had. No set is copied.
pub(crate) fn exchange(trees: &mut [Tree], positions: &[u32], sets: &mut [Tree])
    requires positions { All (λ position. position < length trees.old) positions.now }
    requires rising { AllPairs (λ position later. position < later) positions.now }
    requires long { length sets.old ≡ length positions.now }
    ensures trees { trees.new ≡ with_elements trees.old positions.now sets.old }
    ensures sets { sets.new ≡ at_positions trees.old positions.now }
{
    for i in 0..positions.len() {
        swap(&mut trees[positions[i] as usize], &mut sets[i]);
    }
}
