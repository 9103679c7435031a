//! The growth of a tree from terminal to terminal, by one search.

ghost use Rattle.std.specs.Prelude.{◌≡◌, ◌<◌, ◌≤◌, ◌+◌, ◌^◌, ◌↔◌, ℕ, List, [], IsTrue, IfOk, IfSome, All, length};
ghost use Rattle.grid_base.specs.declared.piece.Piece.{Piece};
ghost use Rattle.grid_base.specs.Numbers.{IsVertex};
ghost use Rattle.grid_base.specs.Spots.{IsSpot};
ghost use Rattle.grid_base.specs.Walks.{Joins, InVertices, InPieces, JoinsList};
ghost use Rattle.grid_graph.specs.Weighed.{IsAllowed};
ghost use Rattle.shortest_paths.specs.LabelWords.{labels_size, masks_of, labels_number};
ghost use Rattle.shortest_paths.specs.LedSearches.{HasKey, AreFirst, IsFirst, found_of, work_of};
ghost use Rattle.label_search.specs.Paths.{NoneWeighsNothing};
ghost use Rattle.label_search.specs.Searches.{IsRelaxed};
ghost use Rattle.shortest_paths.specs.Spanning.{Link, links_weight};
ghost use Rattle.label_search.specs.Stamped.{far};
ghost use Rattle.steiner_span.specs.Growths.{AreKeys, AfterOffer, IsGrowing, IsTaken, FallsTo, FallsOn, RelaxesOn, IsGrown, AreLight};
ghost use Rattle.steiner_span.specs.SpanningLinks.{AreSpanningLinks};

use crate::ahead::Ahead;
use crate::nearest::Nearest;
use crate::step_back::StepBack;
use crate::way_back::way_back;
use grid_base::{NoMemory, Piece, Spot, Vertex, spot_steps};
use grid_graph::{FlooredWeights, Weights};
use shortest_paths::{Bound, Labels, NoBound};

/// Up to this many terminals the ways to all of them are compared at each vertex. With more that costs more than it saves.
const FEW: usize = 500;

/// The key of a vertex under a lower number. What is still to go is asked only where the vertex doesn't wait: the key of
/// one that waits falls by as much as its number.
fn lowered_key<B: Bound>(labels: &Labels, bound: &B, to: Spot, number: u64, offered: u64) -> u64
    requires size { B.size bound.now ≡ labels_size labels.now }
    requires keys { AreKeys (B.rest bound.now) labels.now }
    requires to { IsSpot (labels_size labels.now) to }
    requires number { number ≡ labels_number labels.now to.vertex.0 }
    requires less { offered < number }
    requires small { number ≤ far }
    ensures low { offered ≤ result }
    ensures high { result ≤ offered + B.rest bound.now to.vertex.0 }
    ensures waits { (k : ℕ) → HasKey labels.now to.vertex.0 k → result ≤ k }
{
    match labels.key(to.vertex) {
        Some(key) => key - (number - offered),
        None => offered + bound.rest(to.vertex, to.place),
    }
}

/// Offers a vertex a number.
fn offer<B: Bound>(labels: &mut Labels, bound: &B, to: Spot, offered: u64)
    requires size { B.size bound.now ≡ labels_size labels.old }
    requires keys { AreKeys (B.rest bound.now) labels.old }
    requires to { IsSpot (labels_size labels.old) to }
    ensures keys { AreKeys (B.rest bound.now) labels.new }
    ensures taken { AfterOffer labels.old labels.new to.vertex.0 offered }
    ensures lower { labels_number labels.new to.vertex.0 ≤ offered }
{
    let number = labels.number(to.vertex);
    if offered < number {
        let key = lowered_key(labels, bound, to, number, offered);
        labels.lower(to, offered, key);
    }
}

/// Offers each neighbour of a vertex the number that it gets from there.
fn relax<W: Weights, B: Bound>(labels: &mut Labels, weights: &W, bound: &B, from: Spot)
    requires size { labels_size labels.old ≡ W.size weights.now }
    requires bound_size { B.size bound.now ≡ W.size weights.now }
    requires keys { AreKeys (B.rest bound.now) labels.old }
    requires from { IsSpot (W.size weights.now) from }
    requires number { labels_number labels.old from.vertex.0 < far }
    requires positive { NoneWeighsNothing (W.pieces weights.now) }
    ensures keys { AreKeys (B.rest bound.now) labels.new }
    ensures relaxes_on { RelaxesOn (W.size weights.now) (W.pieces weights.now) labels.old labels.new }
    ensures relaxed { IsRelaxed (W.size weights.now) (W.pieces weights.now) (labels_number labels.new) from.vertex.0 }
{
    let reached = labels.number(from.vertex);
    for step in &spot_steps(labels.size(), from) {
        if let Some((to, by)) = *step {
            if weights.allows(by) {
                offer(labels, bound, to, reached + weights.weight(by));
            }
        }
    }
}

/// Whether a vertex is one of the first found, the terminals, and not in the tree.
fn is_unreached(labels: &Labels, count: u32, v: Vertex) -> bool
    requires vertex { IsVertex (labels_size labels.now) v.0 }
    requires count { count ≤ found_of labels.now }
    ensures { IsTrue result ↔ (IsFirst labels.now count v.0 × (0 < labels_number labels.now v.0)) }
{
    labels.is_first(count, v) && labels.number(v) > 0
}

/// Takes out a vertex of least key.
fn take<W: Weights, B: Bound>(
    labels: &mut Labels,
    weights: &W,
    bound: &B,
    terminals: &[Vertex],
) -> Spot
    requires size { labels_size labels.old ≡ W.size weights.now }
    requires growing { IsGrowing (W.size weights.now) (W.pieces weights.now) (InVertices terminals.now) (B.rest bound.now) labels.old }
    requires joined { Joins (W.size weights.now) (IsAllowed (W.pieces weights.now)) (InVertices terminals.now) }
    requires source { (v : ℕ) × InVertices terminals.now v × (labels_number labels.old v ≡ 0) }
    requires goal { (v : ℕ) × InVertices terminals.now v × (0 < labels_number labels.old v) }
    ensures spot { IsSpot (W.size weights.now) result }
    ensures taken { IsTaken (W.size weights.now) (W.pieces weights.now) (InVertices terminals.now) (B.rest bound.now) labels.new result.vertex.0 }
    ensures fell { FallsOn labels.old labels.new }
    ensures less { work_of labels.new < work_of labels.old }
{
    labels.next().unwrap()
}

/// Goes on with the search until a terminal is taken out that isn't in the tree.
fn next_terminal<W: Weights, B: Bound>(
    labels: &mut Labels,
    weights: &W,
    bound: &B,
    terminals: &[Vertex],
    count: u32,
) -> Spot
    requires size { labels_size labels.old ≡ W.size weights.now }
    requires bound_size { B.size bound.now ≡ W.size weights.now }
    requires terminals { AreFirst terminals.now count labels.old }
    requires growing { IsGrowing (W.size weights.now) (W.pieces weights.now) (InVertices terminals.now) (B.rest bound.now) labels.old }
    requires joined { Joins (W.size weights.now) (IsAllowed (W.pieces weights.now)) (InVertices terminals.now) }
    requires positive { NoneWeighsNothing (W.pieces weights.now) }
    requires source { (v : ℕ) × InVertices terminals.now v × (labels_number labels.old v ≡ 0) }
    requires goal { (v : ℕ) × InVertices terminals.now v × (0 < labels_number labels.old v) }
    ensures spot { IsSpot (W.size weights.now) result }
    ensures terminal { InVertices terminals.now result.vertex.0 }
    ensures unreached { 0 < labels_number labels.new result.vertex.0 }
    ensures taken { IsTaken (W.size weights.now) (W.pieces weights.now) (InVertices terminals.now) (B.rest bound.now) labels.new result.vertex.0 }
    ensures fell { FallsOn labels.old labels.new }
    ensures less { work_of labels.new < work_of labels.old }
{
    let mut at = take(labels, weights, bound, terminals);
    while !is_unreached(labels, count, at.vertex) {
        relax(labels, weights, bound, at);
        at = take(labels, weights, bound, terminals);
    }
    at
}

/// Takes a terminal into the tree, with the whole way back to it, and out of those that are left. The vertices of that way
/// then have the number 0.
fn reach<W: Weights, A: Ahead>(
    labels: &mut Labels,
    weights: &W,
    ahead: &mut A,
    terminals: &[Vertex],
    at: Spot,
    grown: &mut Vec<Piece>,
) -> Result<(), NoMemory>
    requires size { labels_size labels.old ≡ W.size weights.now }
    requires ahead_size { A.size ahead.old ≡ W.size weights.now }
    requires ahead { A.pieces ahead.old ≡ W.pieces weights.now }
    requires left { (v : ℕ) → InVertices terminals.now v → 0 < labels_number labels.old v → A.left ahead.old v }
    requires positive { NoneWeighsNothing (W.pieces weights.now) }
    requires at { IsSpot (W.size weights.now) at }
    requires terminal { InVertices terminals.now at.vertex.0 }
    requires unreached { 0 < labels_number labels.old at.vertex.0 }
    requires taken { IsTaken (W.size weights.now) (W.pieces weights.now) (InVertices terminals.now) (A.rest ahead.old) labels.old at.vertex.0 }
    requires grown { IsGrown (W.size weights.now) (W.pieces weights.now) terminals.now (labels_number labels.old) grown.old.items }
    ensures size { labels_size labels.new ≡ labels_size labels.old }
    ensures masks { masks_of labels.new ≡ masks_of labels.old }
    ensures ahead_size { A.size ahead.new ≡ A.size ahead.old }
    ensures ahead { A.pieces ahead.new ≡ A.pieces ahead.old }
    ensures left { IfOk result (λ _. (v : ℕ) → InVertices terminals.now v → 0 < labels_number labels.new v → A.left ahead.new v) }
    ensures growing { IfOk result (λ _. IsGrowing (W.size weights.now) (W.pieces weights.now) (InVertices terminals.now) (A.rest ahead.new) labels.new) }
    ensures grown { IfOk result (λ _. IsGrown (W.size weights.now) (W.pieces weights.now) terminals.now (labels_number labels.new) grown.new.items) }
    ensures fell { IfOk result (λ _. FallsTo labels.old labels.new) }
    ensures reached { IfOk result (λ _. labels_number labels.new at.vertex.0 ≡ 0) }
{
    let mut way = way_back(labels, weights, at)?;
    ahead.reach(at);
    while let Some(StepBack { from, by }) = way.pop() {
        grown.push(by)?;
        offer(labels, ahead, from, 0);
    }
    Ok(())
}

/// Goes on until a terminal is in the tree.
fn grow_to<W: Weights, A: Ahead>(
    labels: &mut Labels,
    weights: &W,
    ahead: &mut A,
    terminals: &[Vertex],
    count: u32,
    goal: Vertex,
    grown: &mut Vec<Piece>,
) -> Result<(), NoMemory>
    requires size { labels_size labels.old ≡ W.size weights.now }
    requires ahead_size { A.size ahead.old ≡ W.size weights.now }
    requires ahead { A.pieces ahead.old ≡ W.pieces weights.now }
    requires left { (v : ℕ) → InVertices terminals.now v → 0 < labels_number labels.old v → A.left ahead.old v }
    requires vertex { IsVertex (W.size weights.now) goal.0 }
    requires terminals { AreFirst terminals.now count labels.old }
    requires joined { Joins (W.size weights.now) (IsAllowed (W.pieces weights.now)) (InVertices terminals.now) }
    requires positive { NoneWeighsNothing (W.pieces weights.now) }
    requires source { (v : ℕ) × InVertices terminals.now v × (labels_number labels.old v ≡ 0) }
    requires growing { IsGrowing (W.size weights.now) (W.pieces weights.now) (InVertices terminals.now) (A.rest ahead.old) labels.old }
    requires goal { InVertices terminals.now goal.0 }
    requires grown { IsGrown (W.size weights.now) (W.pieces weights.now) terminals.now (labels_number labels.old) grown.old.items }
    ensures size { labels_size labels.new ≡ labels_size labels.old }
    ensures masks { masks_of labels.new ≡ masks_of labels.old }
    ensures ahead_size { A.size ahead.new ≡ A.size ahead.old }
    ensures ahead { A.pieces ahead.new ≡ A.pieces ahead.old }
    ensures left { IfOk result (λ _. (v : ℕ) → InVertices terminals.now v → 0 < labels_number labels.new v → A.left ahead.new v) }
    ensures growing { IfOk result (λ _. IsGrowing (W.size weights.now) (W.pieces weights.now) (InVertices terminals.now) (A.rest ahead.new) labels.new) }
    ensures grown { IfOk result (λ _. IsGrown (W.size weights.now) (W.pieces weights.now) terminals.now (labels_number labels.new) grown.new.items) }
    ensures fell { IfOk result (λ _. FallsTo labels.old labels.new) }
    ensures reached { IfOk result (λ _. labels_number labels.new goal.0 ≡ 0) }
{
    while labels.number(goal) > 0 {
        let at = next_terminal(labels, weights, ahead, terminals, count);
        reach(labels, weights, ahead, terminals, at, grown)?;
    }
    Ok(())
}

/// The pieces of a tree that joins the terminals, by a search from the first of them that takes in the nearest other one
/// each time, with the whole way to it, until all are in. A piece may be listed twice. The labels are those of the weights'
/// size.
pub fn grow_tree<W: FlooredWeights>(
    weights: &W,
    terminals: &[Vertex],
    labels: &mut Labels,
) -> Result<Vec<Piece>, NoMemory>
    requires size { labels_size labels.old ≡ W.size weights.now }
    requires vertices { All (λ v. IsVertex (W.size weights.now) v.0) terminals.now }
    requires some { 1 ≤ length terminals.now }
    requires joined { Joins (W.size weights.now) (IsAllowed (W.pieces weights.now)) (InVertices terminals.now) }
    requires positive { NoneWeighsNothing (W.pieces weights.now) }
    ensures size { labels_size labels.new ≡ labels_size labels.old }
    ensures masks { masks_of labels.new ≡ masks_of labels.old }
    ensures allowed { IfOk result (λ grown. (p : Piece) → InPieces grown.items p → IsAllowed (W.pieces weights.now) p) }
    ensures joins { IfOk result (λ grown. JoinsList (W.size weights.now) grown.items terminals.now) }
    ensures light { IfOk result (λ grown. (links : List Link) → AreSpanningLinks (W.size weights.now) (W.pieces weights.now) terminals.now links → AreLight (W.pieces weights.now) grown.items (links_weight links)) }
{
    if terminals.len() > FEW {
        let mut ahead = NoBound { weights };
        return grow_by(labels, weights, &mut ahead, terminals);
    }
    let mut ahead = Nearest::new(
        labels.allocator(),
        weights,
        labels.size(),
        weights.floors(),
        terminals,
    )?;
    grow_by(labels, weights, &mut ahead, terminals)
}

/// The same, led by a bound of what is still to go to the nearest terminal.
fn grow_by<W: Weights, A: Ahead>(
    labels: &mut Labels,
    weights: &W,
    ahead: &mut A,
    terminals: &[Vertex],
) -> Result<Vec<Piece>, NoMemory>
    requires size { labels_size labels.old ≡ W.size weights.now }
    requires ahead_size { A.size ahead.old ≡ W.size weights.now }
    requires ahead { A.pieces ahead.old ≡ W.pieces weights.now }
    requires left { (v : ℕ) → InVertices terminals.now v → A.left ahead.old v }
    requires vertices { All (λ v. IsVertex (W.size weights.now) v.0) terminals.now }
    requires some { 1 ≤ length terminals.now }
    requires joined { Joins (W.size weights.now) (IsAllowed (W.pieces weights.now)) (InVertices terminals.now) }
    requires positive { NoneWeighsNothing (W.pieces weights.now) }
    ensures size { labels_size labels.new ≡ labels_size labels.old }
    ensures masks { masks_of labels.new ≡ masks_of labels.old }
    ensures allowed { IfOk result (λ grown. (p : Piece) → InPieces grown.items p → IsAllowed (W.pieces weights.now) p) }
    ensures joins { IfOk result (λ grown. JoinsList (W.size weights.now) grown.items terminals.now) }
    ensures light { IfOk result (λ grown. (links : List Link) → AreSpanningLinks (W.size weights.now) (W.pieces weights.now) terminals.now links → AreLight (W.pieces weights.now) grown.items (links_weight links)) }
{
    let count = begin(labels, weights, ahead, terminals);
    let mut grown = Vec::new(labels.allocator());
    for goal in terminals {
        grow_to(labels, weights, ahead, terminals, count, *goal, &mut grown)?;
    }
    Ok(grown)
}

/// Begins the growth at the first terminal, and answers how many terminals there are.
fn begin<W: Weights, A: Ahead>(
    labels: &mut Labels,
    weights: &W,
    ahead: &mut A,
    terminals: &[Vertex],
) -> u32
    requires size { labels_size labels.old ≡ W.size weights.now }
    requires ahead_size { A.size ahead.old ≡ W.size weights.now }
    requires left { (v : ℕ) → InVertices terminals.now v → A.left ahead.old v }
    requires vertices { All (λ v. IsVertex (W.size weights.now) v.0) terminals.now }
    requires some { 1 ≤ length terminals.now }
    ensures size { labels_size labels.new ≡ labels_size labels.old }
    ensures masks { masks_of labels.new ≡ masks_of labels.old }
    ensures ahead_size { A.size ahead.new ≡ A.size ahead.old }
    ensures ahead { A.pieces ahead.new ≡ A.pieces ahead.old }
    ensures left { (v : ℕ) → InVertices terminals.now v → 0 < labels_number labels.new v → A.left ahead.new v }
    ensures terminals { AreFirst terminals.now result labels.new }
    ensures source { (v : ℕ) × InVertices terminals.now v × (labels_number labels.new v ≡ 0) }
    ensures growing { IsGrowing (W.size weights.now) (W.pieces weights.now) (InVertices terminals.now) (A.rest ahead.new) labels.new }
    ensures grown { IsGrown (W.size weights.now) (W.pieces weights.now) terminals.now (labels_number labels.new) [] }
{
    let count = labels.begin(terminals);
    let source = Spot::of(labels.size(), terminals[0]);
    ahead.reach(source);
    offer(labels, ahead, source, 0);
    count
}
