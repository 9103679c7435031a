//! The load that some nets have by their sets.

ghost use Rattle.std.specs.Prelude.{◌≡◌, ◌+◌, ◌*◌, ◌≤◌, ◌<◌, ℕ, length, slice_index, All, IfOk};
ghost use Rattle.grid_graph.specs.Limits.{max_load, max_nets};
ghost use Rattle.grid_graph.specs.Grids.{entries, size_of, IsNetWidth};
ghost use Rattle.tree_set.specs.Loads.{tree_load, load_between, max_tree_load, net_load};
ghost use Rattle.tree_set.specs.Routings.{ArePieces};
ghost use Rattle.routing_stages.specs.Limits.{max_phases};
ghost use Rattle.sharing_runs.specs.RepairRuns.{at_positions};
ghost use Rattle.routing_passes.specs.Passes.{positions_load, max_phase_load, AreSets};

use grid_base::{NoMemory, Piece};
use grid_graph::{Design, Grid};
use routing_stages::Trees;
use std::alloc::Global;
use tree_set::Tree;

/// The load of the nets at these positions from one place up to another by all their sets, in the lists that stay and in the
/// one before the pass: on each edge and, behind these, of the wirelength.
pub(crate) fn loads_of(
    alloc: Global,
    design: &Design,
    earlier: &[Trees],
    before: &[Tree],
    positions: &[u32],
    from: usize,
    to: usize,
) -> Result<Vec<u64>, NoMemory>
    requires earlier { All (AreSets design.now) earlier.now }
    requires lists { length earlier.now < max_phases }
    requires before { AreSets design.now before.now }
    requires positions { All (λ position. position < length design.now.nets) positions.now }
    requires few { length positions.now ≤ max_nets }
    requires range { (from ≤ to) × (to ≤ length positions.now) }
    ensures long { IfOk result (λ loads. length loads.items ≡ entries design.now.grid) }
    ensures loads { IfOk result (λ loads. (r : ℕ) → slice_index loads.items r
        ≡ positions_load design.now earlier.now positions.now from to r
        + load_between design.now.grid (at_positions design.now.nets positions.now) (at_positions before.now positions.now)
        from to r) }
{
    let mut loads = vec![in alloc; 0u64; 2 * design.grid.size().vertices() as usize + 1]?;
    for trees in earlier {
        add_between(design, trees.list(), positions, from, to, &mut loads);
    }
    add_between(design, before, positions, from, to, &mut loads);
    Ok(loads)
}

/// Adds the load of the nets at these positions from one place up to another by these sets.
fn add_between(
    design: &Design,
    trees: &[Tree],
    positions: &[u32],
    from: usize,
    to: usize,
    loads: &mut [u64],
)
    requires sets { AreSets design.now trees.now }
    requires positions { All (λ position. position < length design.now.nets) positions.now }
    requires few { length positions.now ≤ max_nets }
    requires range { (from ≤ to) × (to ≤ length positions.now) }
    requires table { length loads.old ≡ entries design.now.grid }
    requires room { (r : ℕ) → slice_index loads.old r ≤ max_phases * max_phase_load }
    ensures loads { (r : ℕ) → slice_index loads.new r ≡ slice_index loads.old r
        + load_between design.now.grid (at_positions design.now.nets positions.now) (at_positions trees.now positions.now)
        from to r }
    ensures limit { (r : ℕ) → slice_index loads.new r ≤ slice_index loads.old r + max_phase_load }
    ensures long { length loads.new ≡ length loads.old }
{
    let nets = design.nets.list();
    for i in from..to {
        let net = positions[i] as usize;
        add_tree(&design.grid, nets[net].width, &trees[net], loads);
    }
}

/// Adds the load of a net of this width by its set: its demand on each edge of the set, and the number of the set's pieces on
/// the wirelength. `loads` has an entry for each edge number and, behind these, one for the wirelength.
fn add_tree(grid: &Grid, width: u32, tree: &Tree, loads: &mut [u64])
    requires width { IsNetWidth grid.now width }
    requires pieces { ArePieces (size_of grid.now) tree.now }
    requires table { length loads.old ≡ entries grid.now }
    requires room { (r : ℕ) → slice_index loads.old r + max_tree_load ≤ max_load }
    ensures loads { (r : ℕ) → slice_index loads.new r ≡ slice_index loads.old r + tree_load grid.now width tree.now r }
    ensures limit { (r : ℕ) → slice_index loads.new r ≤ slice_index loads.old r + max_tree_load }
    ensures long { length loads.new ≡ length loads.old }
{
    add_edges(grid, width, tree, loads);
    let wirelength = loads.len() - 1;
    loads[wirelength] += tree.pieces().len() as u64;
}

/// Adds what a net of this width uses of each edge of its set.
fn add_edges(grid: &Grid, width: u32, tree: &Tree, loads: &mut [u64])
    requires width { IsNetWidth grid.now width }
    requires pieces { ArePieces (size_of grid.now) tree.now }
    requires table { length loads.old ≡ entries grid.now }
    requires room { (r : ℕ) → slice_index loads.old r + max_tree_load ≤ max_load }
    ensures loads { (r : ℕ) → slice_index loads.new r ≡ slice_index loads.old r + net_load grid.now width tree.now r }
    ensures long { length loads.new ≡ length loads.old }
{
    for p in tree.pieces() {
        if let Piece::Edge(e) = *p {
            loads[e.0 as usize] += u64::from(grid.demand(width, e));
        }
    }
}
