//! Trees of many terminals on small grids, beside spanning trees by distances.

ghost use Rattle.std.specs.Prelude.{◌≡◌, All, IfOk, IsTrue, map};
ghost use Rattle.grid_base.specs.Numbers.{IsVertex};
ghost use Rattle.grid_base.specs.Walks.{Joins, InVertices};
ghost use Rattle.grid_graph.specs.Weighed.{IsAllowed};
ghost use Rattle.shortest_paths.specs.LabelWords.{labels_size, masks_of};

use crate::listed::Listed;
use crate::piece_sets::{are_pieces, are_vertices};
use crate::reference_joins::joins_by_merging;
use crate::reference_paths::reference_distances;
use crate::tree_tests::is_tree;
use grid_base::{NoMemory, Piece, Size, Vertex};
use shortest_paths::Labels;
use std::alloc::{AllocError, Global};
use std::test::Fail;
use steiner_span::spanning_tree;

/// The pieces without their weights.
fn pieces_of(alloc: Global, pieces: &[(Piece, u64)]) -> Result<Vec<Piece>, AllocError>
    ensures { IfOk result (λ listed. listed.items ≡ map (λ x. x.0) pieces.now) }
{
    pieces.iter().map(|entry| entry.0).collect(alloc)
}

/// Whether all the pieces together join the terminals.
fn are_joined(
    alloc: Global,
    weights: &Listed,
    size: Size,
    terminals: &[Vertex],
) -> Result<bool, Fail>
    requires terminals { All (λ v. IsVertex size v.0) terminals.now }
    ensures { IfOk result (λ joined. IsTrue joined → Joins size (IsAllowed weights.now.pieces.items) (InVertices terminals.now)) }
{
    let pieces = pieces_of(alloc, weights.pieces())?;
    if !are_pieces(size, pieces.as_slice()) {
        return Err(Fail::new("no piece"));
    }
    Ok(joins_by_merging(alloc, size, pieces.as_slice(), terminals)?)
}

/// The place of the nearest terminal outside a tree, and how far it is from the tree. Those in the tree are not away from it.
fn nearest(away: &[u64]) -> Option<(usize, u64)> {
    let mut found = None;
    let mut least = u64::MAX;
    for (place, here) in away.iter().enumerate() {
        if *here > 0 && *here < least {
            found = Some((place, *here));
            least = *here;
        }
    }
    found
}

/// Makes terminals as near to a tree as they are to one that is taken in, where it has these distances.
fn take_in(away: &mut [u64], distances: &[Option<u64>], terminals: &[Vertex]) {
    for (place, terminal) in terminals.iter().enumerate() {
        let other = distances.get(terminal.0 as usize).copied().flatten();
        if let Some(kept) = away.get_mut(place) {
            *kept = (*kept).min(other.unwrap_or(u64::MAX));
        }
    }
}

/// The weight of a spanning tree of the terminals by distances, which takes in the nearest one each time (Prim 1957).
fn reference_spanning_weight(
    alloc: Global,
    weights: &Listed,
    size: Size,
    terminals: &[Vertex],
) -> Result<u64, NoMemory>
    requires size { weights.now.size ≡ size }
    requires terminals { All (λ v. IsVertex size v.0) terminals.now }
{
    let mut away = vec![in alloc; u64::MAX; terminals.len()]?;
    let mut total: u64 = 0;
    let mut taken = 0;
    for _ in 1..terminals.len() {
        let distances = reference_distances(alloc, size, weights.pieces(), terminals[taken])?;
        take_in(away.as_mut_slice(), distances.as_slice(), terminals);
        if let Some((place, least)) = nearest(away.as_slice()) {
            if place < terminals.len() {
                taken = place;
            }
            total = total.wrapping_add(least);
        }
    }
    Ok(total)
}

/// Whether the tree that is found is one, and no heavier than a spanning tree by distances.
pub(crate) fn is_light(
    alloc: Global,
    weights: &Listed,
    size: Size,
    terminals: &[Vertex],
    labels: &mut Labels,
) -> Result<bool, Fail>
    requires size { weights.now.size ≡ size }
    requires labels { labels_size labels.old ≡ size }
    ensures size { labels_size labels.new ≡ size }
    ensures masks { masks_of labels.new ≡ masks_of labels.old }
{
    if terminals.is_empty() || !are_vertices(size, terminals) || !weights.is_positive() {
        return Err(Fail::new("no terminals, or a piece weighs nothing"));
    }
    if !are_joined(alloc, weights, size, terminals)? {
        return Ok(true);
    }
    let limit = reference_spanning_weight(alloc, weights, size, terminals)?;
    let (tree, weight) = spanning_tree(weights, terminals, labels)?;
    Ok(weight <= limit && is_tree(alloc, weights, size, terminals, &tree, weight)?)
}
