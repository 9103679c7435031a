//! What pieces weigh beyond tile edges.

ghost use Rattle.std.specs.Prelude.{ℕ, ◌≡◌, ◌≤◌};
ghost use Rattle.grid_graph.specs.Limits.{max_weight};
ghost use Rattle.grid_graph.specs.Weighed.{Weighs, IsAllowed};
ghost use Rattle.terminal_balls.specs.Balls.{beyond};

use grid_base::{Edge, Piece, Size};
use grid_graph::FlooredWeights;

/// What an allowed piece weighs more than the tile edge under it.
pub(crate) fn weight_beyond<W: FlooredWeights>(weights: &W, size: Size, by: Piece) -> u64
    requires size { size ≡ W.size weights.now }
    requires allowed { IsAllowed (W.pieces weights.now) by }
    ensures value { (k : ℕ) → Weighs (W.pieces weights.now) by k → result ≡ beyond (W.size weights.now) (W.over weights.now) by k }
    ensures limit { result ≤ max_weight }
{
    let weight = weights.weight(by);
    match by {
        Piece::Edge(edge) => {
            let per_layer = 2 * (size.cols() * size.rows());
            weight - weights.least_over(Edge(edge.0 % per_layer))
        }
        Piece::Via(_) => weight,
    }
}
