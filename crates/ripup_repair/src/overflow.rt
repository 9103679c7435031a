//! The overflow of loads.

ghost use Rattle.std.specs.Prelude.{◌≡◌, List, length};
ghost use Rattle.grid_base.specs.declared.piece.Piece.{Piece};
ghost use Rattle.grid_graph.specs.Grids.{entries};
ghost use Rattle.tree_set.specs.Loads.{load_list};
ghost use Rattle.sharing_runs.specs.RepairRuns.{routing_overflow};

use grid_graph::Design;
use tree_set::measure_of_loads;

/// The overflow of a routing, read off the list of its loads.
pub(crate) fn overflow_of(design: &Design, loads: &[u64]) -> u64
    requires long { length loads.now ≡ entries design.now.grid }
    requires listed { (trees : List (List Piece)) × (loads.now ≡ load_list design.now.grid design.now.nets trees) }
    ensures { (trees : List (List Piece)) → loads.now ≡ load_list design.now.grid design.now.nets trees
        → result ≡ routing_overflow design.now trees }
{
    let edges = 2 * design.grid.size().vertices() as usize;
    measure_of_loads(&design.grid, &loads[..edges], 0).overflow
}
