//! The nodes that a net's route has to join.

ghost use Rattle.std.specs.Prelude.{◌≡◌, ◌<◌, ◌≤◌, ◌-◌, ◌*◌, ◌/◌, ℕ, All, Contains, OnOk, length};
ghost use Rattle.grid_graph.specs.Flat.{tiles};
ghost use Rattle.overflow_bounds.specs.NetEnds.{IsNodeOfSome};
ghost use Rattle.overflow_bounds.specs.NodeTables.{max_ends};

use crate::node_tables::MOST_ENDS;
use grid_base::{NoMemory, Size, Vertex};

/// Writes the nodes of terminals in place of what the list had, in rising order and each once: all of them where a table is made
/// for so many, else some. `nodes` has the node of each tile.
pub(crate) fn write_ends(
    ends: &mut Vec<u32>,
    size: Size,
    nodes: &[u32],
    terminals: &[Vertex],
) -> Result<(), NoMemory>
    requires nodes { length nodes.now ≡ tiles size }
    ensures some { OnOk result (1 ≤ length terminals.now → 1 ≤ length ends.new.items) }
    ensures few { OnOk result (length ends.new.items ≤ max_ends) }
    ensures each { OnOk result (All (IsNodeOfSome size nodes.now terminals.now) ends.new.items) }
{
    let per_layer = size.cols() * size.rows();
    ends.clear();
    for terminal in terminals {
        ends.push(nodes[(terminal.0 % per_layer) as usize])?;
    }
    ends.sort_unstable();
    ends.dedup();
    keep_some(ends);
    Ok(())
}

/// Keeps no more numbers than a table is made for: of a longer list the first, the last and those at even steps between.
fn keep_some(ends: &mut Vec<u32>)
    ensures some { 1 ≤ length ends.old.items → 1 ≤ length ends.new.items }
    ensures few { length ends.new.items ≤ max_ends }
    ensures within { (n : ℕ) → Contains ends.new.items n → Contains ends.old.items n }
{
    if ends.len() <= MOST_ENDS {
        return;
    }
    let last = ends.len() - 1;
    for place in 0..MOST_ENDS {
        ends[place] = ends[at_step(place, last)];
    }
    ends.truncate(MOST_ENDS);
}

/// The place at which one of so many even steps to the last place ends. Its product is taken apart, since it might be too large.
fn at_step(step: usize, last: usize) -> usize
    requires { step < max_ends }
    ensures { result ≡ step * last / (max_ends - 1) }
{
    let steps = MOST_ENDS - 1;
    step * (last / steps) + step * (last % steps) / steps
}
