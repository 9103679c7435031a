//! Ways back from a vertex to the tree that its number was reached from.

ghost use Rattle.std.specs.Prelude.{◌≡◌, ◌<◌, ◌≤◌, ◌+◌, ◌↔◌, ℕ, IfOk, IfSome, IsSome, IsTrue, reverse};
ghost use Rattle.grid_base.specs.Numbers.{IsVertex};
ghost use Rattle.grid_base.specs.Spots.{IsSpot};
ghost use Rattle.steiner_span.specs.Growths.{AreBehind, IsWayBack};
ghost use Rattle.label_search.specs.Paths.{IsStepBack, IsPieceBack, NoneWeighsNothing};
ghost use Rattle.shortest_paths.specs.LabelWords.{labels_size, labels_number};
ghost use Rattle.label_search.specs.Searches.{IsBehind};
ghost use Rattle.label_search.specs.Stamped.{far};

use crate::step_back::StepBack;
use grid_base::{NoMemory, Piece, Spot, Vertex, spot_steps};
use grid_graph::Weights;
use shortest_paths::Labels;

/// The steps from a vertex back to one of number 0, each to a smaller number by the weight of its piece.
pub(crate) fn way_back<W: Weights>(
    labels: &Labels,
    weights: &W,
    at: Spot,
) -> Result<Vec<StepBack>, NoMemory>
    requires size { labels_size labels.now ≡ W.size weights.now }
    requires at { IsSpot (W.size weights.now) at }
    requires number { labels_number labels.now at.vertex.0 < far }
    requires behind { AreBehind (W.size weights.now) (W.pieces weights.now) (labels_number labels.now) }
    requires positive { NoneWeighsNothing (W.pieces weights.now) }
    ensures { IfOk result (λ way. (here : ℕ) × (labels_number labels.now here ≡ 0) × IsWayBack (W.size weights.now) (W.pieces weights.now) (labels_number labels.now) at.vertex.0 (reverse way.items) here) }
{
    let mut way = Vec::new(labels.allocator());
    let mut here = at;
    while labels.number(here.vertex) > 0 {
        let (before, by) = step_back(labels, weights, here).unwrap();
        way.push(StepBack { from: here, by })?;
        here = before;
    }
    Ok(way)
}

/// A neighbour whose number is smaller by the weight of the piece between, with that piece.
fn step_back<W: Weights>(labels: &Labels, weights: &W, here: Spot) -> Option<(Spot, Piece)>
    requires size { labels_size labels.now ≡ W.size weights.now }
    requires here { IsSpot (W.size weights.now) here }
    requires behind { IsBehind (W.size weights.now) (W.pieces weights.now) (labels_number labels.now) here.vertex.0 }
    ensures found { IsSome result }
    ensures spot { IfSome result (λ x. IsSpot (W.size weights.now) x.0) }
    ensures step { IfSome result (λ x. IsStepBack (W.size weights.now) (W.pieces weights.now) (labels_number labels.now) here.vertex.0 x.0.vertex.0 x.1) }
{
    let number = labels.number(here.vertex);
    for step in &spot_steps(labels.size(), here) {
        if let Some((before, by)) = *step {
            if reaches(labels, weights, before.vertex, by, number) {
                return Some((before, by));
            }
        }
    }
    None
}

/// Whether a vertex gets at most this number from a neighbour, by the piece between.
fn reaches<W: Weights>(labels: &Labels, weights: &W, before: Vertex, by: Piece, number: u64) -> bool
    requires { IsVertex (labels_size labels.now) before.0 }
    ensures { IsTrue result ↔ IsPieceBack (W.pieces weights.now) by (labels_number labels.now before.0) number }
{
    weights.allows(by) && labels.number(before) + weights.weight(by) <= number
}
