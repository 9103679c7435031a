//! Halves of what it costs to join terminals to others, by searches that are led.

ghost use Rattle.std.specs.Prelude.{◌≡◌, ◌<◌, ◌≤◌, All, IfOk, length};
ghost use Rattle.grid_base.specs.Numbers.{IsVertex};
ghost use Rattle.grid_base.specs.Walks.{Joins, InVertices};
ghost use Rattle.grid_graph.specs.TilePieces.{tiles_of};
ghost use Rattle.grid_graph.specs.Weighed.{IsAllowed};
ghost use Rattle.steiner_exact.specs.TreeLabelWords.{AreTreeLabels};
ghost use Rattle.lower_bound.specs.HalfWords.{IsHalf, IsSumOfHalves};

use crate::halves::{has_twin, sum_of_halves};
use grid_base::{NoMemory, Vertex};
use grid_graph::FlooredWeights;
use least_weights::led_nearest;
use std::alloc::Global;
use steiner_exact::{TreeLabels, tiles_of};

/// Half of the least weight of joining the terminal at a place to one other terminal, rounded down.
fn led_half<W: FlooredWeights>(
    alloc: Global,
    weights: &W,
    terminals: &[Vertex],
    tiles: &[Vertex],
    place: usize,
    labels: &mut TreeLabels,
) -> Result<u64, NoMemory>
    requires labels { AreTreeLabels (W.size weights.now) labels.old }
    requires two { 2 ≤ length terminals.now }
    requires place { place < length terminals.now }
    requires tiles { tiles.now ≡ tiles_of (W.size weights.now) terminals.now }
    requires vertices { All (λ v. IsVertex (W.size weights.now) v.0) terminals.now }
    requires joined { Joins (W.size weights.now) (IsAllowed (W.pieces weights.now)) (InVertices terminals.now) }
    ensures half { IfOk result (IsHalf (W.size weights.now) (W.pieces weights.now) terminals.now place) }
    ensures labels { AreTreeLabels (W.size weights.now) labels.new }
{
    if has_twin(terminals, place) {
        return Ok(0);
    }
    let least = led_nearest(alloc, weights, terminals, tiles, terminals[place], labels)?;
    Ok(least.unwrap_or(0) / 2)
}

/// The sum of these halves over all terminals. Where there are several layers, a search of the flat grid leads each search of
/// the grid.
pub(crate) fn sum_of_led_halves<W: FlooredWeights>(
    alloc: Global,
    weights: &W,
    terminals: &[Vertex],
    labels: &mut TreeLabels,
) -> Result<u64, NoMemory>
    requires labels { AreTreeLabels (W.size weights.now) labels.old }
    requires two { 2 ≤ length terminals.now }
    requires vertices { All (λ v. IsVertex (W.size weights.now) v.0) terminals.now }
    requires joined { Joins (W.size weights.now) (IsAllowed (W.pieces weights.now)) (InVertices terminals.now) }
    ensures sum { IfOk result (IsSumOfHalves (W.size weights.now) (W.pieces weights.now) terminals.now (length terminals.now)) }
    ensures labels { AreTreeLabels (W.size weights.now) labels.new }
{
    let size = labels.grid.size();
    if size.layers() == 1 {
        return Ok(sum_of_halves(weights, terminals, &mut labels.grid));
    }
    let tiles = tiles_of(alloc, size, terminals)?;
    let mut sum: u64 = 0;
    for place in 0..terminals.len() {
        let half = led_half(alloc, weights, terminals, tiles.as_slice(), place, labels)?;
        sum = sum.saturating_add(half);
    }
    Ok(sum)
}
