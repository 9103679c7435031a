//! Whether runs join vertices.

ghost use Rattle.std.specs.Prelude.{◌↔◌, All, IfOk, IsTrue};
ghost use Rattle.straight_runs.specs.Runs.{IsStraightRun, pieces_of};
ghost use Rattle.grid_base.specs.Numbers.{IsVertex};
ghost use Rattle.grid_base.specs.Walks.{JoinsList};

use grid_base::{NoMemory, Size, Vertex};
use std::alloc::Global;
use straight_runs::{Run, joins_surely, set_of_runs};
use tree_set::joins;

/// Whether walks in the runs' pieces lead from each of the terminals to each other one.
///
/// Where it is sure that they do, this takes about `n log n` steps for n runs and terminals. Else the runs' pieces are gone
/// through one by one; where the runs are merged, the answer then is a no.
pub(crate) fn runs_join(
    alloc: Global,
    size: Size,
    runs: &[Run],
    terminals: &[Vertex],
) -> Result<bool, NoMemory>
    requires runs { All (IsStraightRun size) runs.now }
    requires vertices { All (λ t. IsVertex size t.0) terminals.now }
    ensures { IfOk result (λ joined. IsTrue joined ↔ JoinsList size (pieces_of size runs.now) terminals.now) }
{
    if joins_surely(alloc, size, runs, terminals)? {
        return Ok(true);
    }
    let tree = set_of_runs(alloc, size, runs)?;
    joins(alloc, size, &tree, terminals)
}
