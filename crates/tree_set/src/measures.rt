//! The measures of sets of pieces, one per net of a design.

ghost use Rattle.std.specs.Prelude.{◌≡◌, ◌*◌, ◌+◌, ◌≤◌, ◌^◌, ℕ, All, IfOk, length, slice_index};
ghost use Rattle.grid_base.specs.Numbers.{vertices};
ghost use Rattle.grid_base.specs.declared.size.Size.{Size};
ghost use Rattle.tree_set.specs.Loads.{load};
ghost use Rattle.tree_set.specs.Measures as measures;
ghost use Rattle.tree_set.specs.Routings.{ArePieces};
ghost use Rattle.tree_set.specs.Limits.{max_routing_load};
ghost use Rattle.grid_graph.specs.Limits.{max_nets};
ghost use Rattle.grid_graph.specs.Grids.{size_of};

use crate::load::add_load;
use crate::load_measure::measure_of_loads;
use crate::measure::Measure;
use crate::tree::Tree;
use grid_base::{NoMemory, Size};
use grid_graph::Design;
use std::alloc::Global;

/// Overflow, wirelength and peak of one set per net, in the order of the nets.
///
/// Takes one pass over all pieces and one over the edges.
pub fn measure_of(alloc: Global, design: &Design, trees: &[Tree]) -> Result<Measure, NoMemory>
    requires one_each { length trees.now ≡ length design.now.nets }
    requires pieces { All (ArePieces (size_of design.now.grid)) trees.now }
    ensures overflow { IfOk result (λ m. m.overflow ≡ measures.overflow design.now.grid (load design.now.grid design.now.nets trees.now)) }
    ensures wirelength { IfOk result (λ m. m.wirelength ≡ measures.wirelength trees.now) }
    ensures peak { IfOk result (λ m. measures.IsPeak design.now.grid (load design.now.grid design.now.nets trees.now) m.peak) }
{
    let size = design.grid.size();
    let mut loads = vec![in alloc; 0; 2 * size.vertices() as usize]?;
    add_all(design, trees, loads.as_mut_slice());
    let wirelength = wirelength_of(size, trees);
    Ok(measure_of_loads(&design.grid, loads.as_slice(), wirelength))
}

/// Adds the loads of all sets to a table without loads.
fn add_all(design: &Design, trees: &[Tree], loads: &mut [u64])
    requires one_each { length trees.now ≡ length design.now.nets }
    requires pieces { All (ArePieces (size_of design.now.grid)) trees.now }
    requires table { length loads.old ≡ 2 * vertices (size_of design.now.grid) }
    requires blank { (e : ℕ) → slice_index loads.old e ≡ 0 }
    ensures value { (e : ℕ) → slice_index loads.new e ≡ load design.now.grid design.now.nets trees.now e }
    ensures limit { (e : ℕ) → slice_index loads.new e ≤ max_routing_load }
{
    let nets = design.nets.list();
    for k in 0..trees.len() {
        add_load(&design.grid, nets[k].width, &trees[k], loads);
    }
}

/// The number of pieces of all sets.
fn wirelength_of(size: Size, trees: &[Tree]) -> u64
    requires count { length trees.now ≤ max_nets }
    requires pieces { All (ArePieces size) trees.now }
    ensures { result ≡ measures.wirelength trees.now }
{
    let mut total = 0;
    for tree in trees {
        total += piece_count(size, tree);
    }
    total
}

/// The number of pieces of a set, which is at most that of all pieces of the size.
fn piece_count(size: Size, tree: &Tree) -> u64
    requires { ArePieces size tree.now }
    ensures value { result ≡ length tree.now }
    ensures limit { result ≤ 3 * vertices size }
{
    tree.pieces().len() as u64
}
