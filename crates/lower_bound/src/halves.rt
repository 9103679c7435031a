//! Halves of what it costs to join terminals to others.

ghost use Rattle.std.specs.Prelude.{◌≡◌, ◌<◌, ◌≤◌, ◌↔◌, IsTrue, All, length};
ghost use Rattle.grid_base.specs.Numbers.{IsVertex};
ghost use Rattle.grid_base.specs.Walks.{Joins, InVertices};
ghost use Rattle.grid_graph.specs.Weighed.{IsAllowed};
ghost use Rattle.shortest_paths.specs.LabelWords.{labels_size, masks_of};
ghost use Rattle.lower_bound.specs.HalfWords.{HasTwin, IsHalf, IsSumOfHalves};

use grid_base::Vertex;
use grid_graph::Weights;
use shortest_paths::Labels;

/// Whether another terminal stands where the one at a place does.
pub(crate) fn has_twin(terminals: &[Vertex], place: usize) -> bool
    requires { place < length terminals.now }
    ensures { IsTrue result ↔ HasTwin terminals.now place }
{
    for other in 0..terminals.len() {
        if other != place && terminals[other] == terminals[place] {
            return true;
        }
    }
    false
}

/// Half of the least weight of joining the terminal at a place to one other terminal, rounded down.
fn half<W: Weights>(weights: &W, terminals: &[Vertex], place: usize, labels: &mut Labels) -> u64
    requires labels { labels_size labels.old ≡ W.size weights.now }
    requires two { 2 ≤ length terminals.now }
    requires place { place < length terminals.now }
    requires vertices { All (λ v. IsVertex (W.size weights.now) v.0) terminals.now }
    requires joined { Joins (W.size weights.now) (IsAllowed (W.pieces weights.now)) (InVertices terminals.now) }
    ensures half { IsHalf (W.size weights.now) (W.pieces weights.now) terminals.now place result }
    ensures size { labels_size labels.new ≡ labels_size labels.old }
    ensures masks { masks_of labels.new ≡ masks_of labels.old }
{
    if has_twin(terminals, place) {
        return 0;
    }
    let least = labels.distance_to_nearest(weights, terminals[place], terminals);
    least.unwrap_or(0) / 2
}

/// The sum of these halves over all terminals. It is never cut off: moats of these radii don't overlap, so it is at most the
/// weight of each joining set.
pub(crate) fn sum_of_halves<W: Weights>(
    weights: &W,
    terminals: &[Vertex],
    labels: &mut Labels,
) -> u64
    requires labels { labels_size labels.old ≡ W.size weights.now }
    requires two { 2 ≤ length terminals.now }
    requires vertices { All (λ v. IsVertex (W.size weights.now) v.0) terminals.now }
    requires joined { Joins (W.size weights.now) (IsAllowed (W.pieces weights.now)) (InVertices terminals.now) }
    ensures sum { IsSumOfHalves (W.size weights.now) (W.pieces weights.now) terminals.now (length terminals.now) result }
    ensures size { labels_size labels.new ≡ labels_size labels.old }
    ensures masks { masks_of labels.new ≡ masks_of labels.old }
{
    let mut sum: u64 = 0;
    for place in 0..terminals.len() {
        sum = sum.saturating_add(half(weights, terminals, place, labels));
    }
    sum
}
