//! A tree that is no heavier than a spanning tree by distances, nor than twice a least tree.

ghost use Rattle.std.specs.Prelude.{◌≡◌, ◌≤◌, IfOk, All, length};
ghost use Rattle.grid_base.specs.Numbers.{IsVertex};
ghost use Rattle.grid_base.specs.Walks.{Joins, InVertices};
ghost use Rattle.grid_graph.specs.Weighed.{IsAllowed};
ghost use Rattle.shortest_paths.specs.LabelWords.{labels_size, masks_of};
ghost use Rattle.label_search.specs.Paths.{NoneWeighsNothing};
ghost use Rattle.steiner_span.specs.LightTrees.{IsLightTree, IsAtMostTwice};

use crate::grow::grow_tree;
use crate::weighing::weight_of;
use grid_base::{NoMemory, Vertex};
use grid_graph::FlooredWeights;
use shortest_paths::Labels;
use tree_set::Tree;

/// A tree of allowed pieces that joins the terminals, and its weight, which is at most that of each spanning tree of the
/// terminals by distances, and so at most twice that of each set that joins them. The labels are those of the weights'
/// size. It takes the nearest terminal into the tree each time, after Prim, "Shortest connection networks and some
/// generalizations" (1957), where the whole tree so far counts as reached and not its terminals alone. The second bound is
/// that of Takahashi and Matsuyama, "An approximate solution for the Steiner problem in graphs" (1980).
pub fn spanning_tree<W: FlooredWeights>(
    weights: &W,
    terminals: &[Vertex],
    labels: &mut Labels,
) -> Result<(Tree, u64), NoMemory>
    requires labels { labels_size labels.old ≡ W.size weights.now }
    requires terminals { All (λ v. IsVertex (W.size weights.now) v.0) terminals.now }
    requires some { 1 ≤ length terminals.now }
    requires joined { Joins (W.size weights.now) (IsAllowed (W.pieces weights.now)) (InVertices terminals.now) }
    requires positive { NoneWeighsNothing (W.pieces weights.now) }
    ensures tree { IfOk result (λ found. IsLightTree (W.size weights.now) (W.pieces weights.now) terminals.now found.0 found.1) }
    ensures twice { IfOk result (λ found. IsAtMostTwice (W.size weights.now) (W.pieces weights.now) terminals.now found.1) }
    ensures size { labels_size labels.new ≡ labels_size labels.old }
    ensures masks { masks_of labels.new ≡ masks_of labels.old }
{
    let tree = Tree::of(grow_tree(weights, terminals, labels)?);
    let weight = weight_of(weights, tree.pieces());
    Ok((tree, weight))
}
