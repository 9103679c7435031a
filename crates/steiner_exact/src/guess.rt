//! A guess of the least weight of a tree.

ghost use Rattle.std.specs.Prelude.{◌≡◌, ◌≤◌, ◌<◌, All, IfOk, IfSome, IsTrue, length};
ghost use Rattle.grid_base.specs.Numbers.{IsVertex};
ghost use Rattle.shortest_paths.specs.LabelWords.{labels_size, masks_of, labels_number};
ghost use Rattle.steiner_tables.specs.Masks.{few_terminals};
ghost use Rattle.label_search.specs.Stamped.{most};

use crate::fork::fork_of;
use crate::limits::MOST;
use crate::nearness::next_nearest;
use grid_base::{NoMemory, Piece, Vertex, steps};
use grid_graph::{FlooredWeights, Weights};
use shortest_paths::{FloorBound, Labels};
use std::alloc::Global;
use steiner_tables::single_of;

/// The weight of a tree to which the terminals are joined one after the other, first those that are near by grid distance (after
/// Takahashi and Matsuyama, 1980): each by a shortest path from the whole tree, or by one to where the next path should fork
/// off and one from there. A search for the least tree begins under this limit, and it is right whatever the limit is.
pub fn tree_guess<W: FlooredWeights>(
    alloc: Global,
    weights: &W,
    terminals: &[Vertex],
    labels: &mut Labels,
) -> Result<u64, NoMemory>
    requires size { labels_size labels.old ≡ W.size weights.now }
    requires terminals { All (λ v. IsVertex (W.size weights.now) v.0) terminals.now }
    requires some { 1 ≤ length terminals.now }
    requires few { length terminals.now ≤ few_terminals }
    ensures limit { IfOk result (λ guess. guess ≤ most) }
    ensures size { labels_size labels.new ≡ labels_size labels.old }
    ensures masks { masks_of labels.new ≡ masks_of labels.old }
{
    let mut tree = Vec::new(alloc);
    tree.push(terminals[0])?;
    let mut joined = 1u32;
    let mut guess = 0;
    for _ in 1..terminals.len() {
        let size = labels.size();
        let next = next_nearest(size, terminals, joined);
        joined |= single_of(next as u32);
        let fork = fork_of(size, terminals, joined, terminals[next], tree.as_slice());
        let between = join(weights, fork, terminals[next], labels, &mut tree)?;
        guess = (guess + between).min(MOST);
    }
    Ok(guess)
}

/// Joins a vertex to a tree and answers what that weighs, where it isn't above the limit of searches: by a shortest path, or
/// by way of the fork, if the search finds that no farther away than the vertex.
fn join<W: FlooredWeights>(
    weights: &W,
    fork: Vertex,
    goal: Vertex,
    labels: &mut Labels,
    tree: &mut Vec<Vertex>,
) -> Result<u64, NoMemory>
    requires size { labels_size labels.old ≡ W.size weights.now }
    requires fork { IsVertex (W.size weights.now) fork.0 }
    requires goal { IsVertex (W.size weights.now) goal.0 }
    requires tree { All (λ v. IsVertex (W.size weights.now) v.0) tree.old.items }
    ensures limit { IfOk result (λ between. between ≤ most) }
    ensures size { labels_size labels.new ≡ labels_size labels.old }
    ensures masks { masks_of labels.new ≡ masks_of labels.old }
    ensures tree { IfOk result (λ _. All (λ v. IsVertex (W.size weights.now) v.0) tree.new.items) }
{
    let bound = FloorBound::new(weights, labels.size(), goal, weights.floors());
    labels.distance_from_any(weights, &bound, tree.as_slice(), goal);
    let to_fork = match (labels.distance(fork), labels.distance(goal)) {
        (Some(near), Some(far)) if fork != goal && near <= far => near.min(MOST),
        _ => 0,
    };
    if to_fork > 0 {
        list_way(weights, labels, fork, tree)?;
        labels.distance_from_any(weights, &bound, tree.as_slice(), goal);
    }
    list_way(weights, labels, goal, tree)?;
    let between = labels.distance(goal).unwrap_or(MOST).min(MOST);
    Ok((to_fork + between).min(MOST))
}

/// Lists a vertex and those of the way back from it, as far as numbers fall.
fn list_way<W: Weights>(
    weights: &W,
    labels: &Labels,
    goal: Vertex,
    tree: &mut Vec<Vertex>,
) -> Result<(), NoMemory>
    requires size { labels_size labels.now ≡ W.size weights.now }
    requires goal { IsVertex (W.size weights.now) goal.0 }
    requires tree { All (λ v. IsVertex (W.size weights.now) v.0) tree.old.items }
    ensures { IfOk result (λ _. All (λ v. IsVertex (W.size weights.now) v.0) tree.new.items) }
{
    let mut here = goal;
    tree.push(here)?;
    while let Some(before) = step_back(weights, labels, here) {
        here = before;
        tree.push(here)?;
    }
    Ok(())
}

/// A neighbour from which a number was reached that is greater than its own.
fn step_back<W: Weights>(weights: &W, labels: &Labels, here: Vertex) -> Option<Vertex>
    requires size { labels_size labels.now ≡ W.size weights.now }
    requires vertex { IsVertex (W.size weights.now) here.0 }
    ensures vertex { IfSome result (λ before. IsVertex (W.size weights.now) before.0) }
    ensures less { IfSome result (λ before. labels_number labels.now before.0 < labels_number labels.now here.0) }
{
    let number = labels.distance(here)?;
    for step in &steps(labels.size(), here) {
        if let Some((before, by)) = *step {
            if is_behind(weights, labels, before, by, number) {
                return Some(before);
            }
        }
    }
    None
}

/// Whether a vertex has a smaller number, by which a neighbour has got this one.
fn is_behind<W: Weights>(
    weights: &W,
    labels: &Labels,
    before: Vertex,
    by: Piece,
    number: u64,
) -> bool
    requires { IsVertex (labels_size labels.now) before.0 }
    ensures { IsTrue result → labels_number labels.now before.0 < number }
{
    match labels.distance(before) {
        Some(least) => {
            least < number && weights.allows(by) && least + weights.weight(by) <= number
        }
        None => false,
    }
}
