//! Graphs of few nodes in place of tiles.

ghost use Rattle.std.specs.Prelude.{◌≡◌, ◌<◌, ◌+◌, ◌*◌, ◌^◌, All, IfOk, length};
ghost use Rattle.grid_base.specs.Numbers.{layers, vertices};
ghost use Rattle.overflow_bounds.specs.MergedGraphs.{IsMerged, AreLinksOf};

use crate::link::Link;
use grid_base::{Edge, NoMemory, Piece, Size};
use grid_graph::Weights;
use groups::Groups;
use std::alloc::Global;

/// Nodes that stand for tiles, and links between them. Tiles that edges without cost join are one node, so where most edges cost
/// nothing there are few.
#[derive(Drop)]
pub(crate) struct MergedGraph {
    /// The node of each tile.
    pub nodes: Vec<u32>,
    /// How many nodes there are.
    pub count: u32,
    pub links: Vec<Link>,
}

impl MergedGraph {
    /// The graph of a flat grid at these weights.
    pub fn of<W: Weights>(alloc: Global, weights: &W, size: Size) -> Result<MergedGraph, NoMemory>
        requires size { size ≡ W.size weights.now }
        requires flat { layers size ≡ 1 }
        ensures { IfOk result (IsMerged size (W.pieces weights.now)) }
    {
        let mut groups = Groups::single(alloc, size.vertices() as usize)?;
        unite_free(&mut groups, weights, size);
        groups.flatten();
        let groups = groups.parents.as_slice();
        let linked = linked_groups(alloc, weights, size, groups)?;
        let (nodes, count) = numbered(alloc, groups, linked.as_slice())?;
        let links = links_between(alloc, weights, size, nodes.as_slice())?;
        Ok(MergedGraph {
            nodes,
            count,
            links,
        })
    }
}

/// Unites the ends of an edge that costs nothing.
fn unite_along<W: Weights>(groups: &mut Groups, weights: &W, size: Size, e: Edge)
    requires size { size ≡ W.size weights.now }
    requires long { length groups.old.parents.items ≡ vertices size }
    ensures { length groups.new.parents.items ≡ length groups.old.parents.items }
{
    let p = Piece::Edge(e);
    if weights.allows(p) && weights.weight(p) == 0 {
        let (start, end) = size.ends_of(p);
        groups.unite(start.0 as usize, end.0 as usize);
    }
}

/// Unites the ends of all edges that cost nothing.
fn unite_free<W: Weights>(groups: &mut Groups, weights: &W, size: Size)
    requires size { size ≡ W.size weights.now }
    requires long { length groups.old.parents.items ≡ vertices size }
    ensures { length groups.new.parents.items ≡ length groups.old.parents.items }
{
    for e in 0..2 * size.vertices() {
        unite_along(groups, weights, size, Edge(e));
    }
}

/// Marks what stands for the groups of an edge's ends, where these are two.
fn mark_ends<W: Weights>(linked: &mut [bool], weights: &W, size: Size, groups: &[u32], e: Edge)
    requires size { size ≡ W.size weights.now }
    requires long { length groups.now ≡ vertices size }
    ensures { length linked.new ≡ length linked.old }
{
    let p = Piece::Edge(e);
    if !weights.allows(p) {
        return;
    }
    let (start, end) = size.ends_of(p);
    let ends = [groups[start.0 as usize], groups[end.0 as usize]];
    for group in ends {
        if let Some(mark) = linked.get_mut(group as usize) {
            *mark |= ends[0] != ends[1];
        }
    }
}

/// For each tile whether it stands for a group that an edge leads out of.
fn linked_groups<W: Weights>(
    alloc: Global,
    weights: &W,
    size: Size,
    groups: &[u32],
) -> Result<Vec<bool>, NoMemory>
    requires size { size ≡ W.size weights.now }
    requires long { length groups.now ≡ vertices size }
{
    let mut linked = vec![in alloc; false; groups.len()]?;
    for e in 0..2 * size.vertices() {
        mark_ends(linked.as_mut_slice(), weights, size, groups, Edge(e));
    }
    Ok(linked)
}

/// A node for each tile and how many nodes there are, by the one that stands for each tile's group. Groups that no edge leads out
/// of are node 0 together: nothing joins them, and there may be many. The others have numbers in the order of their first tiles.
fn numbered(alloc: Global, groups: &[u32], linked: &[bool]) -> Result<(Vec<u32>, u32), NoMemory>
    requires { length groups.now < 2 ^ 31 }
    ensures long { IfOk result (λ made. length made.0.items ≡ length groups.now) }
    ensures inside { IfOk result (λ made. All (λ n. n < made.1) made.0.items) }
{
    let mut nodes: Vec<u32> = Vec::with_capacity(alloc, groups.len())?;
    let mut count = 1;
    for group in groups {
        let node = match linked.get(*group as usize) {
            Some(true) => nodes.get(*group as usize).copied().unwrap_or(count),
            _ => 0,
        };
        nodes.push(node)?;
        count = count.max(node + 1);
    }
    Ok((nodes, count))
}

/// Adds the link along an edge to those along the edges before it. None is added where the edge stays within a node.
fn add_link<W: Weights>(
    links: &mut Vec<Link>,
    weights: &W,
    size: Size,
    nodes: &[u32],
    e: Edge,
) -> Result<(), NoMemory>
    requires size { size ≡ W.size weights.now }
    requires long { length nodes.now ≡ vertices size }
    requires before { AreLinksOf size (W.pieces weights.now) nodes.now e.0 links.old.items }
    ensures { IfOk result (λ _. AreLinksOf size (W.pieces weights.now) nodes.now (e.0 + 1) links.new.items) }
{
    let p = Piece::Edge(e);
    if !weights.allows(p) {
        return Ok(());
    }
    let (start, end) = size.ends_of(p);
    let one = nodes[start.0 as usize];
    let other = nodes[end.0 as usize];
    if one == other {
        return Ok(());
    }
    links.push(Link {
        one,
        other,
        cost: weights.weight(p),
    })?;
    Ok(())
}

/// The links along all edges.
fn links_between<W: Weights>(
    alloc: Global,
    weights: &W,
    size: Size,
    nodes: &[u32],
) -> Result<Vec<Link>, NoMemory>
    requires size { size ≡ W.size weights.now }
    requires long { length nodes.now ≡ vertices size }
    ensures { IfOk result (λ links. AreLinksOf size (W.pieces weights.now) nodes.now (2 * vertices size) links.items) }
{
    let mut links = Vec::new(alloc);
    for e in 0..2 * size.vertices() {
        add_link(&mut links, weights, size, nodes, Edge(e))?;
    }
    Ok(links)
}
