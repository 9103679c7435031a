//! A set of least weight that joins two terminals.

ghost use Rattle.std.specs.Prelude.{◌≡◌, IfOk, length};
ghost use Rattle.grid_base.specs.Walks.{Joins, InVertices};
ghost use Rattle.grid_graph.specs.Weighed.{IsAllowed};
ghost use Rattle.shortest_paths.specs.LabelWords.{labels_size, masks_of};
ghost use Rattle.label_search.specs.Paths.{NoneWeighsNothing};
ghost use Rattle.steiner_exact.specs.LeastSets.{IsLeastTree};
ghost use Rattle.steiner_exact.specs.TreeLabelWords.{AreTreeLabels};

use crate::flat_weights::FlatWeights;
use crate::goal_bound::GoalBound;
use crate::limits::{FIRST_SLACK, LED_VIA};
use crate::tiles::tile_under;
use crate::tree_labels::TreeLabels;
use grid_base::{NoMemory, Vertex};
use grid_graph::{FlooredWeights, Weights};
use shortest_paths::{Bound, FloorBound, Labels, SearchBound};
use tree_set::Tree;

/// A set of least weight that joins two terminals, and its weight. Where there are several layers and vias weigh little, a
/// search between tiles leads the one of the grid; elsewhere floors do.
pub(crate) fn least_path<W: FlooredWeights>(
    weights: &W,
    terminals: &[Vertex],
    labels: &mut TreeLabels,
) -> Result<(Tree, u64), NoMemory>
    requires labels { AreTreeLabels (W.size weights.now) labels.old }
    requires two { length terminals.now ≡ 2 }
    requires joined { Joins (W.size weights.now) (IsAllowed (W.pieces weights.now)) (InVertices terminals.now) }
    requires positive { NoneWeighsNothing (W.pieces weights.now) }
    ensures tree { IfOk result (λ found. IsLeastTree (W.size weights.now) (W.pieces weights.now) terminals.now found.0 found.1) }
    ensures labels { AreTreeLabels (W.size weights.now) labels.new }
{
    let size = labels.grid.size();
    let floors = weights.floors();
    if size.layers() > 1 && floors.via <= LED_VIA {
        return led_path(weights, terminals, labels);
    }
    let bound = FloorBound::new(weights, size, terminals[1], floors);
    path_by(weights, &bound, terminals, &mut labels.grid)
}

/// The same, by a search that one of the flat grid leads: from the second terminal's tile to the first one's, and on by a
/// slack.
fn led_path<W: FlooredWeights>(
    weights: &W,
    terminals: &[Vertex],
    labels: &mut TreeLabels,
) -> Result<(Tree, u64), NoMemory>
    requires labels { AreTreeLabels (W.size weights.now) labels.old }
    requires two { length terminals.now ≡ 2 }
    requires joined { Joins (W.size weights.now) (IsAllowed (W.pieces weights.now)) (InVertices terminals.now) }
    requires positive { NoneWeighsNothing (W.pieces weights.now) }
    ensures tree { IfOk result (λ found. IsLeastTree (W.size weights.now) (W.pieces weights.now) terminals.now found.0 found.1) }
    ensures labels { AreTreeLabels (W.size weights.now) labels.new }
{
    let size = labels.grid.size();
    let flat = labels.flat.size();
    let from = tile_under(size, terminals[0]);
    let to = tile_under(size, terminals[1]);
    let ground = FlatWeights::new(weights, flat, labels.flat_edges.as_slice());
    let lead = FloorBound::new(&ground, flat, from, ground.floors());
    let least = labels
        .flat
        .distance_past(&ground, &lead, to, from, FIRST_SLACK);
    let across = SearchBound::new(&ground, &lead, &labels.flat, least);
    let bound = GoalBound::new(weights, size, terminals[1], &across);
    path_by(weights, &bound, terminals, &mut labels.grid)
}

/// The same, by a search that this bound leads.
fn path_by<W: Weights, B: Bound>(
    weights: &W,
    bound: &B,
    terminals: &[Vertex],
    labels: &mut Labels,
) -> Result<(Tree, u64), NoMemory>
    requires size { labels_size labels.old ≡ W.size weights.now }
    requires bound_size { B.size bound.now ≡ W.size weights.now }
    requires bound { B.pieces bound.now ≡ W.pieces weights.now }
    requires two { length terminals.now ≡ 2 }
    requires joined { Joins (W.size weights.now) (IsAllowed (W.pieces weights.now)) (InVertices terminals.now) }
    requires positive { NoneWeighsNothing (W.pieces weights.now) }
    ensures tree { IfOk result (λ found. IsLeastTree (W.size weights.now) (W.pieces weights.now) terminals.now found.0 found.1) }
    ensures size { labels_size labels.new ≡ labels_size labels.old }
    ensures masks { masks_of labels.new ≡ masks_of labels.old }
{
    let goal = terminals[1];
    labels.distance_between(weights, bound, terminals[0], goal);
    let weight = labels.distance(goal).unwrap();
    let path = labels.path_to(weights, goal)?;
    Ok((Tree::of(path), weight))
}
