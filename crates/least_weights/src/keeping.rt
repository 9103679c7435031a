//! The least weight that joins a few tiles, once for all nets that have them.

ghost use Rattle.std.specs.Prelude.{ℕ, ◌≡◌, ◌≤◌, ◌↔◌, All, length};
ghost use Rattle.grid_base.specs.Numbers.{IsVertex};
ghost use Rattle.grid_base.specs.Walks.{Joins, InVertices};
ghost use Rattle.grid_graph.specs.Weighed.{IsAllowed};
ghost use Rattle.shortest_paths.specs.LabelWords.{labels_size, masks_of};
ghost use Rattle.steiner_tables.specs.Masks.{rooted_masks, few_terminals};
ghost use Rattle.label_search.specs.Sets.{IsLeastWeight};
ghost use Rattle.landmarks.specs.Numbers.{AreLandmarks};
ghost use Rattle.least_weights.specs.KeptCosts.{AreKeptCosts};

use crate::kept_costs::KeptCosts;
use crate::least::{least_by_landmarks, least_weight};
use grid_base::Vertex;
use grid_graph::FlooredWeights;
use landmarks::Landmarks;
use shortest_paths::Labels;

/// The least weight of a set of allowed pieces that joins at most five tiles, as it is kept or by a search that landmarks lead.
pub fn kept_least<W: FlooredWeights>(
    weights: &W,
    landmarks: &Landmarks,
    kept: &mut KeptCosts,
    tiles: &[Vertex],
    labels: &mut Labels,
) -> u64
    requires labels { labels_size labels.old ≡ W.size weights.now }
    requires room { rooted_masks ≤ masks_of labels.old }
    requires landmarks { AreLandmarks (W.size weights.now) (W.pieces weights.now) landmarks.now }
    requires few { length tiles.now ≤ few_terminals }
    requires vertices { All (λ v. IsVertex (W.size weights.now) v.0) tiles.now }
    requires joined { Joins (W.size weights.now) (IsAllowed (W.pieces weights.now)) (InVertices tiles.now) }
    requires kept { AreKeptCosts (W.size weights.now) (W.pieces weights.now) kept.old.entries.items }
    ensures least { IsLeastWeight (W.size weights.now) (W.pieces weights.now) (InVertices tiles.now) result }
    ensures kept { AreKeptCosts (W.size weights.now) (W.pieces weights.now) kept.new.entries.items }
    ensures size { labels_size labels.new ≡ labels_size labels.old }
    ensures masks { masks_of labels.new ≡ masks_of labels.old }
{
    if tiles.len() < 2 {
        return least_weight(weights, tiles, labels);
    }
    let key = five_of(tiles);
    match kept.get(&key) {
        Some(cost) => cost,
        None => {
            let cost = least_by_landmarks(weights, landmarks, tiles, labels);
            kept.put(key, cost);
            cost
        }
    }
}

/// The tiles as five, of which the first may stand there again.
fn five_of(tiles: &[Vertex]) -> [Vertex; 5]
    requires some { 1 ≤ length tiles.now }
    requires few { length tiles.now ≤ few_terminals }
    ensures { (v : ℕ) → InVertices result v ↔ InVertices tiles.now v }
{
    let mut five = [tiles[0]; 5];
    for place in 1..tiles.len() {
        five[place] = tiles[place];
    }
    five
}
