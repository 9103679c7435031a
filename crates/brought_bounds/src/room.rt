//! Whether moats hold.

ghost use Rattle.std.specs.Prelude.{◌≡◌, ◌≢◌, ◌<◌, ◌≤◌, ◌+◌, ◌↔◌, ℕ, List, All, IfSome, IsTrue, length};
ghost use Rattle.std.specs.List.{sum};
ghost use Rattle.grid_base.specs.declared.piece.Piece.{Piece};
ghost use Rattle.grid_base.specs.Numbers.{IsVertex};
ghost use Rattle.grid_base.specs.Walks.{Joins, InVertices};
ghost use Rattle.grid_graph.specs.Weighed.{IsAllowed};
ghost use Rattle.shortest_paths.specs.LabelWords.{labels_size, masks_of};
ghost use Rattle.label_search.specs.Sets.{IsSetOf, weight};
ghost use Rattle.lower_bound.specs.Moats.{AreMoats};
ghost use Rattle.brought_bounds.specs.MoatWords.{HasRoom, IsApart};

use crate::moats::Moats;
use grid_base::{Size, Vertex};
use grid_graph::Weights;
use shortest_paths::Labels;

/// Whether a distance is at least the sum of two radii. What isn't joined is as far as may be.
fn is_room(distance: Option<u64>, one: u64, other: u64) -> bool
    ensures { IsTrue result ↔ IfSome distance (λ d. one + other ≤ d) }
{
    match distance {
        Some(d) => is_within(d, one, other),
        None => true,
    }
}

/// Whether a number is at least the sum of two.
fn is_within(whole: u64, one: u64, other: u64) -> bool
    ensures { IsTrue result ↔ (one + other ≤ whole) }
{
    if one > whole {
        return false;
    }
    other <= whole - one
}

/// Whether the moats of the terminals at two places don't overlap. The labels tell distances from the first.
fn has_room(
    labels: &Labels,
    terminals: &[Vertex],
    radii: &[u64],
    place: usize,
    other: usize,
) -> bool
    requires place { place < length terminals.now }
    requires other { other < length terminals.now }
    requires each { length radii.now ≡ length terminals.now }
    requires vertices { All (λ v. IsVertex (labels_size labels.now) v.0) terminals.now }
    ensures { IsTrue result ↔ HasRoom labels.now terminals.now radii.now place other }
{
    if other == place {
        return true;
    }
    is_room(
        labels.distance(terminals[other]),
        radii[place],
        radii[other],
    )
}

/// Whether the moat at a place overlaps none of the others.
fn has_room_everywhere(labels: &Labels, terminals: &[Vertex], radii: &[u64], place: usize) -> bool
    requires place { place < length terminals.now }
    requires each { length radii.now ≡ length terminals.now }
    requires vertices { All (λ v. IsVertex (labels_size labels.now) v.0) terminals.now }
    ensures { IsTrue result ↔ ((other : ℕ) → other < length terminals.now
        → HasRoom labels.now terminals.now radii.now place other) }
{
    for other in 0..terminals.len() {
        if !has_room(labels, terminals, radii, place, other) {
            return false;
        }
    }
    true
}

/// The same, with a search from the terminal.
fn is_apart<W: Weights>(
    weights: &W,
    terminals: &[Vertex],
    radii: &[u64],
    place: usize,
    labels: &mut Labels,
) -> bool
    requires place { place < length terminals.now }
    requires each { length radii.now ≡ length terminals.now }
    requires vertices { All (λ v. IsVertex (W.size weights.now) v.0) terminals.now }
    requires labels { labels_size labels.old ≡ W.size weights.now }
    ensures apart { IsTrue result ↔ IsApart (W.size weights.now) (W.pieces weights.now) terminals.now radii.now place }
    ensures size { labels_size labels.new ≡ labels_size labels.old }
    ensures masks { masks_of labels.new ≡ masks_of labels.old }
{
    labels.distances(weights, terminals[place], terminals);
    has_room_everywhere(labels, terminals, radii, place)
}

/// Whether moats hold, whoever made them: one per terminal, and no two overlap. Where they do, the sum of their radii is a
/// lower bound of what joins the terminals. The labels serve the searches.
pub fn moats_hold<W: Weights>(
    weights: &W,
    size: Size,
    terminals: &[Vertex],
    moats: &Moats,
    labels: &mut Labels,
) -> bool
    requires size { size ≡ W.size weights.now }
    requires vertices { All (λ v. IsVertex size v.0) terminals.now }
    requires labels { labels_size labels.old ≡ size }
    ensures holds { IsTrue result ↔ AreMoats size (W.pieces weights.now) terminals.now moats.now.radii }
    ensures bound { IsTrue result → 2 ≤ length terminals.now → (set : List (Piece × ℕ)) → IsSetOf (W.pieces weights.now) set
        → Joins size (IsAllowed set) (InVertices terminals.now) → sum moats.now.radii ≤ weight set }
    ensures size { labels_size labels.new ≡ labels_size labels.old }
    ensures masks { masks_of labels.new ≡ masks_of labels.old }
{
    let radii = moats.radii.list();
    if radii.len() != terminals.len() {
        return false;
    }
    for place in 0..terminals.len() {
        if !is_apart(weights, terminals, radii, place, labels) {
            return false;
        }
    }
    true
}
