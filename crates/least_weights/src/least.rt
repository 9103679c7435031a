//! The least weight that joins a few terminals.

ghost use Rattle.std.specs.Prelude.{◌≡◌, ◌≤◌, All, length};
ghost use Rattle.grid_base.specs.Numbers.{IsVertex};
ghost use Rattle.grid_base.specs.Walks.{Joins, InVertices};
ghost use Rattle.grid_graph.specs.Weighed.{IsAllowed};
ghost use Rattle.shortest_paths.specs.LabelWords.{labels_size, masks_of};
ghost use Rattle.steiner_tables.specs.Masks.{rooted_masks, few_terminals};
ghost use Rattle.label_search.specs.Sets.{IsLeastWeight};
ghost use Rattle.landmarks.specs.Numbers.{AreLandmarks};

use grid_base::Vertex;
use grid_graph::{FlooredWeights, Weights};
use landmarks::{LandmarkFamily, Landmarks};
use shortest_paths::Labels;
use steiner_exact::{BoxFamily, FIRST_SLACK, least_at_root, tree_guess};
use steiner_tables::{Family, RestOf};

/// The least weight of a set of allowed pieces that joins at most five terminals. Of more than two it takes memory for a tree to
/// begin under; where there is none, the search takes a few more turns.
pub fn least_weight<W: FlooredWeights>(
    weights: &W,
    terminals: &[Vertex],
    labels: &mut Labels,
) -> u64
    requires labels { labels_size labels.old ≡ W.size weights.now }
    requires room { rooted_masks ≤ masks_of labels.old }
    requires few { length terminals.now ≤ few_terminals }
    requires vertices { All (λ v. IsVertex (W.size weights.now) v.0) terminals.now }
    requires joined { Joins (W.size weights.now) (IsAllowed (W.pieces weights.now)) (InVertices terminals.now) }
    ensures least { IsLeastWeight (W.size weights.now) (W.pieces weights.now) (InVertices terminals.now) result }
    ensures size { labels_size labels.new ≡ labels_size labels.old }
    ensures masks { masks_of labels.new ≡ masks_of labels.old }
{
    if terminals.len() < 2 {
        return 0;
    }
    let family = BoxFamily::new(weights, labels.size(), terminals);
    least_by(weights, &family, terminals, labels)
}

/// The same of two to five terminals, led by landmarks.
pub(crate) fn least_by_landmarks<W: FlooredWeights>(
    weights: &W,
    landmarks: &Landmarks,
    terminals: &[Vertex],
    labels: &mut Labels,
) -> u64
    requires labels { labels_size labels.old ≡ W.size weights.now }
    requires room { rooted_masks ≤ masks_of labels.old }
    requires landmarks { AreLandmarks (W.size weights.now) (W.pieces weights.now) landmarks.now }
    requires two { 2 ≤ length terminals.now }
    requires few { length terminals.now ≤ few_terminals }
    requires vertices { All (λ v. IsVertex (W.size weights.now) v.0) terminals.now }
    requires joined { Joins (W.size weights.now) (IsAllowed (W.pieces weights.now)) (InVertices terminals.now) }
    ensures least { IsLeastWeight (W.size weights.now) (W.pieces weights.now) (InVertices terminals.now) result }
    ensures size { labels_size labels.new ≡ labels_size labels.old }
    ensures masks { masks_of labels.new ≡ masks_of labels.old }
{
    let led = LandmarkFamily::new(weights, labels.size(), terminals, landmarks);
    least_by(weights, &led, terminals, labels)
}

/// The same, led by a family. Of two terminals it is their distance. Of more the search begins under the weight of a tree.
fn least_by<W: FlooredWeights, F: Family>(
    weights: &W,
    family: &F,
    terminals: &[Vertex],
    labels: &mut Labels,
) -> u64
    requires labels { labels_size labels.old ≡ W.size weights.now }
    requires room { rooted_masks ≤ masks_of labels.old }
    requires family_size { F.size family.now ≡ W.size weights.now }
    requires family { F.pieces family.now ≡ W.pieces weights.now }
    requires family_terminals { F.terminals family.now ≡ terminals.now }
    requires two { 2 ≤ length terminals.now }
    requires few { length terminals.now ≤ few_terminals }
    requires vertices { All (λ v. IsVertex (W.size weights.now) v.0) terminals.now }
    requires joined { Joins (W.size weights.now) (IsAllowed (W.pieces weights.now)) (InVertices terminals.now) }
    ensures least { IsLeastWeight (W.size weights.now) (W.pieces weights.now) (InVertices terminals.now) result }
    ensures size { labels_size labels.new ≡ labels_size labels.old }
    ensures masks { masks_of labels.new ≡ masks_of labels.old }
{
    if terminals.len() == 2 {
        return distance_by(weights, family, terminals, labels);
    }
    let guess = tree_guess(labels.allocator(), weights, terminals, labels).unwrap_or(0);
    least_at_root(weights, family, terminals, guess, FIRST_SLACK, labels)
}

/// The distance of two terminals, led by a family.
fn distance_by<W: Weights, F: Family>(
    weights: &W,
    family: &F,
    terminals: &[Vertex],
    labels: &mut Labels,
) -> u64
    requires labels { labels_size labels.old ≡ W.size weights.now }
    requires family_size { F.size family.now ≡ W.size weights.now }
    requires family { F.pieces family.now ≡ W.pieces weights.now }
    requires family_terminals { F.terminals family.now ≡ terminals.now }
    requires two { length terminals.now ≡ 2 }
    requires joined { Joins (W.size weights.now) (IsAllowed (W.pieces weights.now)) (InVertices terminals.now) }
    ensures least { IsLeastWeight (W.size weights.now) (W.pieces weights.now) (InVertices terminals.now) result }
    ensures size { labels_size labels.new ≡ labels_size labels.old }
    ensures masks { masks_of labels.new ≡ masks_of labels.old }
{
    let bound = RestOf::to_one(family, 1);
    labels.distance_between(weights, &bound, terminals[0], terminals[1]);
    labels.distance(terminals[1]).unwrap()
}
