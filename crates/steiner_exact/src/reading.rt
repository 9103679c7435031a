//! Reading a tree back from a table.

ghost use Rattle.std.specs.Prelude.{◌≡◌, ◌<◌, ◌≤◌, ◌+◌, ◌-◌, ◌↔◌, ℕ, List, length, None, IfOk, IfSome, IsTrue};
ghost use Rattle.grid_base.specs.Numbers.{IsVertex};
ghost use Rattle.shortest_paths.specs.LabelWords.{labels_size, masks_of, label_of};
ghost use Rattle.steiner_tables.specs.Masks.{few_terminals};
ghost use Rattle.label_search.specs.Stamped.{most};
ghost use Rattle.label_search.specs.Paths.{IsStepBack, IsPieceBack, NoneWeighsNothing};
ghost use Rattle.label_search.specs.Searches.{IsBehind};
ghost use Rattle.steiner_tables.specs.Tables.{IsAlone, IsSplit};
ghost use Rattle.tree_set.specs.Order.{IsRising};
ghost use Rattle.steiner_exact.specs.Reading.{AreReached, IsReadOn, LeadsTo, IsSplitBy, IsTreeWithin};

use grid_base::{NoMemory, Piece, Vertex, steps};
use grid_graph::Weights;
use shortest_paths::Labels;
use std::alloc::Global;
use steiner_tables::{are_parts, single_of};
use tree_set::Tree;

/// The tree of a mask at a vertex, by the numbers of a table.
pub(crate) fn read_tree<W: Weights>(
    alloc: Global,
    weights: &W,
    labels: &Labels,
    terminals: &[Vertex],
    mask: u32,
    v: Vertex,
) -> Result<Tree, NoMemory>
    requires size { labels_size labels.now ≡ W.size weights.now }
    requires positive { NoneWeighsNothing (W.pieces weights.now) }
    requires few { length terminals.now ≤ few_terminals }
    requires some { 0 < mask }
    requires mask { mask < 32 }
    requires vertex { IsVertex (W.size weights.now) v.0 }
    requires room { mask ≤ masks_of labels.now }
    requires kept { label_of labels.now mask v.0 ≤ most }
    requires reached { AreReached (W.size weights.now) (W.pieces weights.now) terminals.now mask (label_of labels.now) }
    ensures rising { IfOk result (λ tree. IsRising tree) }
    ensures tree { IfOk result (λ tree. IsTreeWithin (W.size weights.now) (W.pieces weights.now) terminals.now mask v.0 (label_of labels.now mask v.0) tree) }
{
    let mut pieces = Vec::new(alloc);
    read_part(weights, labels, terminals, mask, v, &mut pieces)?;
    Ok(Tree::of(pieces))
}

/// Lists the pieces of a mask's tree at a vertex.
fn read_part<W: Weights>(
    weights: &W,
    labels: &Labels,
    terminals: &[Vertex],
    mask: u32,
    v: Vertex,
    tree: &mut Vec<Piece>,
) -> Result<(), NoMemory>
    requires size { labels_size labels.now ≡ W.size weights.now }
    requires positive { NoneWeighsNothing (W.pieces weights.now) }
    requires few { length terminals.now ≤ few_terminals }
    requires some { 0 < mask }
    requires mask { mask < 32 }
    requires vertex { IsVertex (W.size weights.now) v.0 }
    requires room { mask ≤ masks_of labels.now }
    requires kept { label_of labels.now mask v.0 ≤ most }
    requires reached { AreReached (W.size weights.now) (W.pieces weights.now) terminals.now mask (label_of labels.now) }
    ensures { IfOk result (λ _. IsReadOn (W.size weights.now) (W.pieces weights.now) terminals.now mask v.0 (label_of labels.now mask v.0) tree.old.items tree.new.items) }
{
    let here = follow(weights, labels, mask, v, tree)?;
    if is_alone(terminals, mask, here) {
        return Ok(());
    }
    let one = split_of(labels, mask, here).unwrap();
    read_part(weights, labels, terminals, one, here, tree)?;
    read_part(weights, labels, terminals, mask - one, here, tree)
}

/// Lists the pieces of the way back from a vertex, as far as numbers of the mask were reached from a neighbour.
fn follow<W: Weights>(
    weights: &W,
    labels: &Labels,
    mask: u32,
    v: Vertex,
    tree: &mut Vec<Piece>,
) -> Result<Vertex, NoMemory>
    requires size { labels_size labels.now ≡ W.size weights.now }
    requires positive { NoneWeighsNothing (W.pieces weights.now) }
    requires some { 0 < mask }
    requires vertex { IsVertex (W.size weights.now) v.0 }
    requires room { mask ≤ masks_of labels.now }
    requires kept { label_of labels.now mask v.0 ≤ most }
    ensures vertex { IfOk result (λ end. IsVertex (W.size weights.now) end.0) }
    ensures kept { IfOk result (λ end. label_of labels.now mask end.0 ≤ most) }
    ensures end { IfOk result (λ end. ¬ IsBehind (W.size weights.now) (W.pieces weights.now) (label_of labels.now mask) end.0) }
    ensures leads { IfOk result (λ end. LeadsTo (W.size weights.now) (W.pieces weights.now) mask (label_of labels.now mask) v.0 end.0 tree.old.items tree.new.items) }
{
    let mut here = v;
    while let Some((before, by)) = behind(weights, labels, mask, here) {
        tree.push(by)?;
        here = before;
    }
    Ok(here)
}

/// A neighbour from which the number of a mask at a vertex was reached, with the piece between.
fn behind<W: Weights>(
    weights: &W,
    labels: &Labels,
    mask: u32,
    here: Vertex,
) -> Option<(Vertex, Piece)>
    requires size { labels_size labels.now ≡ W.size weights.now }
    requires some { 0 < mask }
    requires vertex { IsVertex (W.size weights.now) here.0 }
    requires room { mask ≤ masks_of labels.now }
    requires kept { label_of labels.now mask here.0 ≤ most }
    ensures some { IfSome result (λ x. IsStepBack (W.size weights.now) (W.pieces weights.now) (label_of labels.now mask) here.0 x.0.0 x.1) }
    ensures none { result ≡ None → ¬ IsBehind (W.size weights.now) (W.pieces weights.now) (label_of labels.now mask) here.0 }
{
    let number = labels.label(mask, here).unwrap();
    for step in &steps(labels.size(), here) {
        if let Some((before, by)) = *step {
            if reaches(weights, labels, mask, before, by, number) {
                return Some((before, by));
            }
        }
    }
    None
}

/// Whether a vertex gets at most this number from a neighbour, by the piece between.
fn reaches<W: Weights>(
    weights: &W,
    labels: &Labels,
    mask: u32,
    before: Vertex,
    by: Piece,
    number: u64,
) -> bool
    requires some { 0 < mask }
    requires room { mask ≤ masks_of labels.now }
    requires vertex { IsVertex (labels_size labels.now) before.0 }
    requires number { number ≤ most }
    ensures { IsTrue result ↔ IsPieceBack (W.pieces weights.now) by (label_of labels.now mask before.0) number }
{
    match labels.label(mask, before) {
        Some(least) => weights.allows(by) && least + weights.weight(by) <= number,
        None => false,
    }
}

/// Whether the mask is that of a terminal alone, which the vertex is.
fn is_alone(terminals: &[Vertex], mask: u32, v: Vertex) -> bool
    requires { length terminals.now ≤ few_terminals }
    ensures { IsTrue result ↔ IsAlone terminals.now mask v.0 }
{
    for place in 0..terminals.len() {
        if terminals[place] == v && mask == single_of(place as u32) {
            return true;
        }
    }
    false
}

/// A part of a mask by which its number at a vertex was reached: with that of the rest it is at most the mask's.
fn split_of(labels: &Labels, mask: u32, v: Vertex) -> Option<u32>
    requires some { 0 < mask }
    requires mask { mask < 32 }
    requires vertex { IsVertex (labels_size labels.now) v.0 }
    requires room { mask ≤ masks_of labels.now }
    requires kept { label_of labels.now mask v.0 ≤ most }
    ensures some { IfSome result (λ one. IsSplitBy (label_of labels.now) one (mask - one) mask v.0) }
    ensures none { result ≡ None → ¬ IsSplit (label_of labels.now) mask v.0 }
{
    let number = labels.label(mask, v).unwrap();
    for one in 1..mask {
        if are_parts(one, mask - one, mask) && add_up(labels, one, mask - one, v, number) {
            return Some(one);
        }
    }
    None
}

/// Whether the numbers of two masks at a vertex are together at most this one.
fn add_up(labels: &Labels, one: u32, other: u32, v: Vertex, number: u64) -> bool
    requires one { 0 < one }
    requires other { 0 < other }
    requires one_room { one ≤ masks_of labels.now }
    requires other_room { other ≤ masks_of labels.now }
    requires vertex { IsVertex (labels_size labels.now) v.0 }
    requires number { number ≤ most }
    ensures { IsTrue result ↔ (label_of labels.now one v.0 + label_of labels.now other v.0 ≤ number) }
{
    match labels.label(one, v) {
        Some(first) => match labels.label(other, v) {
            Some(second) => first + second <= number,
            None => false,
        },
        None => false,
    }
}
