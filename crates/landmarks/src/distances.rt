//! Distances from landmarks.

ghost use Rattle.std.specs.Prelude.{◌≡◌, ◌≢◌, ◌≤◌, ◌<◌, ◌+◌, ◌^◌, ℕ, All, IfOk, length, min};
ghost use Rattle.grid_base.specs.Numbers.{IsVertex, vertices};
ghost use Rattle.label_search.specs.Stamped.{most, far};
ghost use Rattle.shortest_paths.specs.LabelWords.{labels_size, masks_of, label_of};
ghost use Rattle.steiner_tables.specs.Tables.{IsPrunedTable};
ghost use Rattle.landmarks.specs.Numbers.{farthest_number, known_number};

use grid_base::Vertex;
use grid_graph::Weights;
use label_search::MOST;
use shortest_paths::{Labels, NoFamily};

/// The greatest number, for what is as far from a landmark or farther.
pub(crate) const FARTHEST: u32 = u32::MAX;

/// Finds the distances of all vertices from the first of two.
pub(crate) fn search_from<W: Weights>(weights: &W, vertices: &[Vertex], labels: &mut Labels)
    requires size { labels_size labels.old ≡ W.size weights.now }
    requires room { 1 ≤ masks_of labels.old }
    requires two { length vertices.now ≡ 2 }
    requires vertices { All (λ v. IsVertex (W.size weights.now) v.0) vertices.now }
    ensures size { labels_size labels.new ≡ labels_size labels.old }
    ensures masks { masks_of labels.new ≡ masks_of labels.old }
    ensures table { IsPrunedTable (W.size weights.now) (W.pieces weights.now) vertices.now 1 (λ _ _. 0) most far
        (label_of labels.new) }
{
    let family = NoFamily {
        weights,
        terminals: vertices,
    };
    labels.pruned(weights, &family, vertices, 1, MOST);
}

/// The distance of a vertex by the latest search, as far as numbers reach.
pub(crate) fn number_of(labels: &Labels, v: Vertex) -> u32
    requires room { 1 ≤ masks_of labels.now }
    requires vertex { IsVertex (labels_size labels.now) v.0 }
    ensures { result ≡ known_number labels.now v.0 }
{
    match labels.label(1, v) {
        Some(distance) => distance.min(u64::from(FARTHEST)) as u32,
        None => FARTHEST,
    }
}
