//! What is still to go, by a search that ended.

ghost use Rattle.std.specs.Prelude.{◌≡◌, ◌≤◌};
ghost use Rattle.shortest_paths.specs.LabelWords.{labels_size, labels_number};
ghost use Rattle.label_search.specs.Searches.{known};
ghost use Rattle.label_search.specs.Sets.{RisesSlowly};
ghost use Rattle.label_search.specs.Stamped.{far};

use crate::labels::Labels;
use grid_base::{Place, Vertex};
use grid_graph::Weights;
use label_search::Bound;

/// What is still to go to the source of a search that ended: a vertex's number, or what the bound that led it leaves of the
/// least key that may wait, where that is smaller.
#[derive(Drop)]
pub struct SearchBound<'a, W: Weights, B: Bound> {
    weights: &'a W,
    lead: &'a B,
    labels: &'a Labels,
    least: u64,
    ghost size: { labels_size labels.now ≡ W.size weights.now },
    ghost lead_size: { B.size lead.now ≡ W.size weights.now },
    ghost small: { least ≤ far },
    ghost slow: { RisesSlowly (W.size weights.now) (W.pieces weights.now) (known (labels_number labels.now) (B.rest lead.now) least) },
}

impl<'a, W: Weights, B: Bound> SearchBound<'a, W, B> {
    ghost use Rattle.std.specs.Prelude.{◌≡◌, ◌≤◌};
    ghost use Rattle.shortest_paths.specs.LabelWords.{labels_size, labels_number};
    ghost use Rattle.label_search.specs.Searches.{known};
    ghost use Rattle.label_search.specs.Sets.{RisesSlowly};
    ghost use Rattle.label_search.specs.Stamped.{far};

    /// The bound by labels whose latest search went by these weights and this lead, and ended with no waiting key below
    /// `least`.
    pub fn new(weights: &'a W, lead: &'a B, labels: &'a Labels, least: u64) -> SearchBound<'a, W, B>
        requires size { labels_size labels.now ≡ W.size weights.now }
        requires lead_size { B.size lead.now ≡ W.size weights.now }
        requires least { least ≤ far }
        requires known { RisesSlowly (W.size weights.now) (W.pieces weights.now) (known (labels_number labels.now) (B.rest lead.now) least) }
        ensures weights { result.weights.now ≡ weights.now }
        ensures lead { result.lead.now ≡ lead.now }
        ensures labels { result.labels.now ≡ labels.now }
        ensures least { result.least ≡ least }
    {
        SearchBound {
            weights,
            lead,
            labels,
            least,
        }
    }
}

impl<W: Weights, B: Bound> Bound for SearchBound<'_, W, B> {
    ghost use Rattle.shortest_paths.specs.LabelWords.{labels_number};
    ghost use Rattle.label_search.specs.Searches.{known};

    ghost size = { λ x. W.size x.weights.now };

    ghost pieces = { λ x. W.pieces x.weights.now };

    ghost rest = { λ x. known (labels_number x.labels.now) (B.rest x.lead.now) x.least };

    ghost slow = { λ x. x.slow };

    fn rest(&self, v: Vertex, place: Place) -> u64 {
        let left = self.least.saturating_sub(self.lead.rest(v, place));
        self.labels.number(v).min(left)
    }
}
