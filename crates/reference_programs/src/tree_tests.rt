//! Least trees on small grids, beside a full table and, where pieces are few, all sets of them.

ghost use Rattle.std.specs.Prelude.{◌≡◌, ◌≤◌, All, IfOk, IsSome, length};
ghost use Rattle.grid_base.specs.Numbers.{IsVertex};
ghost use Rattle.grid_base.specs.Walks.{Joins, InVertices};
ghost use Rattle.grid_graph.specs.Weighed.{IsAllowed};
ghost use Rattle.steiner_tables.specs.Masks.{few_terminals};
ghost use Rattle.steiner_exact.specs.TreeLabelWords.{AreTreeLabels};

use crate::distance_tests::mixed;
use crate::listed::Listed;
use crate::piece_sets::{are_pieces, are_vertices};
use crate::reference_weights::reference_least_weight;
use dijkstra_steiner::{MaskLabels, least_over_masks};
use grid_base::{NoMemory, Size, Vertex};
use shortest_paths::Labels;
use std::alloc::Global;
use std::test::Fail;
use steiner_exact::{BoxFamily, TreeLabels, least_tree};
use tree_set::{Tree, joins};

/// All sets of the pieces are tried where they are no more than these.
const FEW: usize = 14;

/// Drawn terminals, of which two may be the same vertex.
pub(crate) fn drawn_terminals(
    alloc: Global,
    size: Size,
    seed: u32,
    count: u32,
) -> Result<Vec<Vertex>, NoMemory> {
    let mut terminals = Vec::new(alloc);
    for i in 0..count {
        terminals.push(Vertex(mixed(seed, i) % size.vertices()))?;
    }
    Ok(terminals)
}

/// The number of the full table for all terminals but the last, at the last.
fn least_by_table(
    alloc: Global,
    weights: &Listed,
    size: Size,
    terminals: &[Vertex],
) -> Result<Option<u64>, NoMemory>
    requires size { weights.now.size ≡ size }
    requires terminals { All (λ v. IsVertex size v.0) terminals.now }
    requires two { 2 ≤ length terminals.now }
    requires few { length terminals.now ≤ few_terminals }
    ensures { IfOk result (λ least. IsSome least → Joins size (IsAllowed weights.now.pieces.items) (InVertices terminals.now)) }
{
    let mut labels = Labels::new(alloc, size, 15)?;
    labels.subsets(weights, terminals);
    let others = terminals.len() - 1;
    Ok(labels.label((1 << others as u32) - 1, terminals[others]))
}

/// Whether the tree is a set of allowed pieces of this weight that joins the terminals.
pub(crate) fn is_tree(
    alloc: Global,
    weights: &Listed,
    size: Size,
    terminals: &[Vertex],
    tree: &Tree,
    weight: u64,
) -> Result<bool, Fail>
    requires terminals { All (λ v. IsVertex size v.0) terminals.now }
{
    if !are_pieces(size, tree.pieces()) {
        return Ok(false);
    }
    Ok(weights.weight_of(tree.pieces()) == Some(weight) && joins(alloc, size, tree, terminals)?)
}

/// Whether the lightest of all sets weighs so much, where they are tried.
fn sets_agree(
    alloc: Global,
    weights: &Listed,
    size: Size,
    terminals: &[Vertex],
    expected: Option<u64>,
) -> Result<bool, NoMemory>
    requires size { weights.now.size ≡ size }
    requires terminals { All (λ v. IsVertex size v.0) terminals.now }
{
    let pieces = weights.pieces();
    if pieces.len() > FEW {
        return Ok(true);
    }
    Ok(reference_least_weight(alloc, size, pieces, terminals)? == expected)
}

/// Whether one search over the masks of the terminals finds this weight, where the grid is flat.
fn search_agrees(
    alloc: Global,
    weights: &Listed,
    size: Size,
    terminals: &[Vertex],
    expected: u64,
) -> Result<bool, NoMemory>
    requires size { weights.now.size ≡ size }
    requires terminals { All (λ v. IsVertex size v.0) terminals.now }
    requires two { 2 ≤ length terminals.now }
    requires few { length terminals.now ≤ few_terminals }
    requires joined { Joins size (IsAllowed weights.now.pieces.items) (InVertices terminals.now) }
{
    match MaskLabels::new(alloc, size)? {
        Some(mut labels) => {
            let family = BoxFamily::new(weights, size, terminals);
            Ok(least_over_masks(weights, &family, terminals, &mut labels) == expected)
        }
        None => Ok(size.layers() > 1),
    }
}

/// Whether a least tree weighs what the table says, what the lightest of all sets weighs, and what one search finds.
pub(crate) fn tree_agrees(
    alloc: Global,
    weights: &Listed,
    size: Size,
    terminals: &[Vertex],
    labels: &mut TreeLabels,
) -> Result<bool, Fail>
    requires size { weights.now.size ≡ size }
    requires labels { AreTreeLabels size labels.old }
    ensures labels { AreTreeLabels size labels.new }
{
    if terminals.len() < 2 || terminals.len() > 5 || !are_vertices(size, terminals) {
        return Err(Fail::new("no terminals"));
    }
    if !weights.is_positive() {
        return Err(Fail::new("a piece weighs nothing"));
    }
    let expected = least_by_table(alloc, weights, size, terminals)?;
    if !sets_agree(alloc, weights, size, terminals, expected)? {
        return Ok(false);
    }
    if expected.is_none() {
        return Ok(true);
    }
    let (tree, weight) = least_tree(alloc, weights, terminals, labels)?;
    if !search_agrees(alloc, weights, size, terminals, weight)? {
        return Ok(false);
    }
    Ok(expected == Some(weight) && is_tree(alloc, weights, size, terminals, &tree, weight)?)
}
