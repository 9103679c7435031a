//! The least weight that joins a few terminals, by a search that is led.

ghost use Rattle.std.specs.Prelude.{◌≤◌, All, IfOk, length};
ghost use Rattle.grid_base.specs.Numbers.{IsVertex};
ghost use Rattle.grid_base.specs.Walks.{Joins, InVertices};
ghost use Rattle.grid_graph.specs.Weighed.{IsAllowed};
ghost use Rattle.label_search.specs.Sets.{IsLeastWeight};
ghost use Rattle.steiner_exact.specs.TreeLabelWords.{AreTreeLabels};
ghost use Rattle.steiner_tables.specs.Masks.{few_terminals};

use grid_base::{NoMemory, Vertex};
use grid_graph::FlooredWeights;
use std::alloc::Global;
use steiner_exact::{TABLE_VIAS, TreeLabels, least_by_tiles};

/// So many vias more than a set of tile edges a set of the grid has at first.
const FIRST_VIAS: u64 = 2;

/// The least weight of a set of allowed pieces that joins at most five terminals. As in the search of a least tree, a table of
/// the terminals' tiles bounds that of the grid; but limits are counted in vias, which may weigh little or much.
pub fn led_least<W: FlooredWeights>(
    alloc: Global,
    weights: &W,
    terminals: &[Vertex],
    labels: &mut TreeLabels,
) -> Result<u64, NoMemory>
    requires labels { AreTreeLabels (W.size weights.now) labels.old }
    requires few { length terminals.now ≤ few_terminals }
    requires vertices { All (λ v. IsVertex (W.size weights.now) v.0) terminals.now }
    requires joined { Joins (W.size weights.now) (IsAllowed (W.pieces weights.now)) (InVertices terminals.now) }
    ensures least { IfOk result (IsLeastWeight (W.size weights.now) (W.pieces weights.now) (InVertices terminals.now)) }
    ensures labels { AreTreeLabels (W.size weights.now) labels.new }
{
    if terminals.len() < 2 {
        return Ok(0);
    }
    let via = weights.floors().via;
    let (slack, table_slack) = (FIRST_VIAS * via, TABLE_VIAS * via);
    let least = least_by_tiles(alloc, weights, terminals, slack, table_slack, labels)?;
    Ok(least)
}
