//! Halves by the costs of pairs, which are kept.

ghost use Rattle.std.specs.Prelude.{◌≡◌, ◌≢◌, ◌<◌, ◌≤◌, All, length};
ghost use Rattle.grid_base.specs.Numbers.{IsVertex};
ghost use Rattle.grid_base.specs.Walks.{Joins, InVertices};
ghost use Rattle.grid_graph.specs.Weighed.{IsAllowed};
ghost use Rattle.shortest_paths.specs.LabelWords.{labels_size, masks_of};
ghost use Rattle.steiner_tables.specs.Masks.{rooted_masks};
ghost use Rattle.label_search.specs.Sets.{IsLeastWeight, IsEither};
ghost use Rattle.landmarks.specs.Numbers.{AreLandmarks};
ghost use Rattle.least_weights.specs.KeptCosts.{AreKeptCosts};
ghost use Rattle.lower_bound.specs.HalfWords.{IsHalf, IsSumOfHalves};

use crate::halves::has_twin;
use grid_base::Vertex;
use grid_graph::FlooredWeights;
use landmarks::Landmarks;
use least_weights::{KeptCosts, kept_least};
use shortest_paths::Labels;

/// The least weight that joins two tiles.
fn between<W: FlooredWeights>(
    weights: &W,
    landmarks: &Landmarks,
    kept: &mut KeptCosts,
    one: Vertex,
    other: Vertex,
    labels: &mut Labels,
) -> u64
    requires labels { labels_size labels.old ≡ W.size weights.now }
    requires room { rooted_masks ≤ masks_of labels.old }
    requires landmarks { AreLandmarks (W.size weights.now) (W.pieces weights.now) landmarks.now }
    requires one { IsVertex (W.size weights.now) one.0 }
    requires other { IsVertex (W.size weights.now) other.0 }
    requires joined { Joins (W.size weights.now) (IsAllowed (W.pieces weights.now)) (IsEither one.0 other.0) }
    requires kept { AreKeptCosts (W.size weights.now) (W.pieces weights.now) kept.old.entries.items }
    ensures least { IsLeastWeight (W.size weights.now) (W.pieces weights.now) (IsEither one.0 other.0) result }
    ensures kept { AreKeptCosts (W.size weights.now) (W.pieces weights.now) kept.new.entries.items }
    ensures size { labels_size labels.new ≡ labels_size labels.old }
    ensures masks { masks_of labels.new ≡ masks_of labels.old }
{
    if other.0 < one.0 {
        return kept_least(weights, landmarks, kept, &[other, one], labels);
    }
    kept_least(weights, landmarks, kept, &[one, other], labels)
}

/// The place of another one of two or more.
fn another(place: usize) -> usize
    ensures low { result ≤ 1 }
    ensures differs { result ≢ place }
{
    if place == 0 { 1 } else { 0 }
}

/// Half of the least weight of joining the tile at a place to one other, rounded down.
fn kept_half<W: FlooredWeights>(
    weights: &W,
    landmarks: &Landmarks,
    kept: &mut KeptCosts,
    tiles: &[Vertex],
    place: usize,
    labels: &mut Labels,
) -> u64
    requires labels { labels_size labels.old ≡ W.size weights.now }
    requires room { rooted_masks ≤ masks_of labels.old }
    requires landmarks { AreLandmarks (W.size weights.now) (W.pieces weights.now) landmarks.now }
    requires two { 2 ≤ length tiles.now }
    requires place { place < length tiles.now }
    requires vertices { All (λ v. IsVertex (W.size weights.now) v.0) tiles.now }
    requires joined { Joins (W.size weights.now) (IsAllowed (W.pieces weights.now)) (InVertices tiles.now) }
    requires kept { AreKeptCosts (W.size weights.now) (W.pieces weights.now) kept.old.entries.items }
    ensures half { IsHalf (W.size weights.now) (W.pieces weights.now) tiles.now place result }
    ensures kept { AreKeptCosts (W.size weights.now) (W.pieces weights.now) kept.new.entries.items }
    ensures size { labels_size labels.new ≡ labels_size labels.old }
    ensures masks { masks_of labels.new ≡ masks_of labels.old }
{
    if has_twin(tiles, place) {
        return 0;
    }
    let first = another(place);
    let here = tiles[place];
    let mut least = between(weights, landmarks, kept, here, tiles[first], labels);
    for other in 0..tiles.len() {
        if other != place {
            least = least.min(between(weights, landmarks, kept, here, tiles[other], labels));
        }
    }
    least / 2
}

/// The sum of these halves over all tiles.
pub(crate) fn sum_of_kept_halves<W: FlooredWeights>(
    weights: &W,
    landmarks: &Landmarks,
    kept: &mut KeptCosts,
    tiles: &[Vertex],
    labels: &mut Labels,
) -> u64
    requires labels { labels_size labels.old ≡ W.size weights.now }
    requires room { rooted_masks ≤ masks_of labels.old }
    requires landmarks { AreLandmarks (W.size weights.now) (W.pieces weights.now) landmarks.now }
    requires two { 2 ≤ length tiles.now }
    requires vertices { All (λ v. IsVertex (W.size weights.now) v.0) tiles.now }
    requires joined { Joins (W.size weights.now) (IsAllowed (W.pieces weights.now)) (InVertices tiles.now) }
    requires kept { AreKeptCosts (W.size weights.now) (W.pieces weights.now) kept.old.entries.items }
    ensures sum { IsSumOfHalves (W.size weights.now) (W.pieces weights.now) tiles.now (length tiles.now) result }
    ensures kept { AreKeptCosts (W.size weights.now) (W.pieces weights.now) kept.new.entries.items }
    ensures size { labels_size labels.new ≡ labels_size labels.old }
    ensures masks { masks_of labels.new ≡ masks_of labels.old }
{
    let mut sum: u64 = 0;
    for place in 0..tiles.len() {
        sum = sum.saturating_add(kept_half(weights, landmarks, kept, tiles, place, labels));
    }
    sum
}
