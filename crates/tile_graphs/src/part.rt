//! Parts of the graph of regions.

ghost use Rattle.std.specs.Prelude.{◌≡◌, ◌+◌, ◌-◌, ◌<◌, ◌^◌, ◌≢◌, ◌++◌, ◌∷◌, ◌||◌, ◌==◌, [], All, IfOk, OnOk, IsPermutation, fold, length, min, max, replicate, slice_get, slice_index};
ghost use Rattle.std.specs.List.{list_all, list_any, sum_by};
ghost use Rattle.tile_graphs.specs.Bundles.{AreTight, CostAlike, demand_of_bundles, looks_of_bundle, much_of, no_end};
ghost use Rattle.tile_graphs.specs.Fullness.{excess_of, in_word, is_above};
ghost use Rattle.tile_graphs.specs.Links.{AreLinksOf, is_link_of, open_excess_of, with_hot_edge, with_link_for, with_link_price, with_more_at_last, with_numbers};

use crate::bundles::{Bundle, looks_of, merged};
use crate::tile_use::TileTotal;
use grid_base::NoMemory;
use std::alloc::Global;

/// A hot tile edge between two regions, which are given by their numbers as nodes, the lower one first, and the number of its
/// link.
#[derive(Debug, Drop, Clone, Copy, PartialEq, Eq, PartialOrd, Ord)]
pub struct HotEdge {
    one: u32,
    other: u32,
    pub tile_edge: u32,
    pub link: u32,
}

/// All hot tile edges between two regions.
#[derive(Debug, Drop, Clone, Copy, PartialEq, Eq)]
pub struct Link {
    pub one: u32,
    pub other: u32,
    pub total: TileTotal,
}

/// Nodes that hot tile edges join without the outside, with the outside as node 0, and the nets that have ends there.
#[derive(Drop)]
pub struct Part {
    pub nodes: u32,
    pub links: Vec<Link>,
    pub edges: Vec<HotEdge>,
    nets: Vec<Bundle>,
}

impl Part {
    /// The outside alone.
    pub fn new(alloc: Global) -> Part
        ensures nodes { result.nodes ≡ 1 }
        ensures links { result.links.items ≡ [] }
        ensures edges { result.edges.items ≡ [] }
        ensures nets { result.nets.items ≡ [] }
    {
        Part {
            nodes: 1,
            links: Vec::new(alloc),
            edges: Vec::new(alloc),
            nets: Vec::new(alloc),
        }
    }

    /// The number of one node more.
    pub fn add_node(&mut self) -> u32
        ensures number { result ≡ self.old.nodes }
        ensures new { self.new ≡ record self.old { nodes = min (self.old.nodes + 1) (2 ^ 32 - 1) } }
    {
        let node = self.nodes;
        self.nodes = node.saturating_add(1);
        node
    }

    /// Adds a tile edge between two nodes, which is in no link so far.
    pub fn add_edge(&mut self, one: u32, other: u32, tile_edge: u32) -> Result<(), NoMemory>
        ensures edges { OnOk result (self.new.edges.items
            ≡ self.old.edges.items ++ record { one = min one other; other = max one other; tile_edge = tile_edge; link = 0 } ∷ []) }
        ensures links { self.new.links ≡ self.old.links }
        ensures nets { self.new.nets ≡ self.old.nets }
        ensures nodes { self.new.nodes ≡ self.old.nodes }
    {
        self.edges.push(HotEdge {
            one: one.min(other),
            other: one.max(other),
            tile_edge,
            link: 0,
        })?;
        Ok(())
    }

    /// Adds a net that has two ends at least.
    pub fn add_net(&mut self, net: Bundle) -> Result<(), NoMemory>
        ensures apart { slice_index net.ends.nodes 1 ≢ no_end → OnOk result (self.new.nets.items ≡ self.old.nets.items ++ net ∷ []) }
        ensures single { slice_index net.ends.nodes 1 ≡ no_end → self.new.nets ≡ self.old.nets }
        ensures edges { self.new.edges ≡ self.old.edges }
        ensures links { self.new.links ≡ self.old.links }
        ensures nodes { self.new.nodes ≡ self.old.nodes }
    {
        if net.ends.are_apart() {
            self.nets.push(net)?;
        }
        Ok(())
    }

    /// Makes the links of the tile edges, of which these are the totals.
    pub fn make_links(&mut self, totals: &[TileTotal]) -> Result<(), NoMemory>
        ensures links { OnOk result (AreLinksOf totals.now self.old.links.items self.old.edges.items self.new.links.items self.new.edges.items) }
        ensures nets { self.new.nets ≡ self.old.nets }
        ensures nodes { self.new.nodes ≡ self.old.nodes }
    {
        self.edges.sort_unstable();
        link_all(&mut self.links, self.edges.as_mut_slice(), totals)
    }

    /// The nets in bundles.
    pub fn bundles(&mut self, alloc: Global) -> Result<Vec<Bundle>, NoMemory>
        ensures bundled { IfOk result (λ bundles. demand_of_bundles self.old.nets.items < 2 ^ 64 → CostAlike bundles.items self.old.nets.items) }
        ensures tight { IfOk result (λ bundles. AreTight (much_of self.old.nets.items) bundles.items) }
        ensures nets { IsPermutation self.old.nets.items self.new.nets.items }
        ensures edges { self.new.edges ≡ self.old.edges }
        ensures links { self.new.links ≡ self.old.links }
        ensures nodes { self.new.nodes ≡ self.old.nodes }
    {
        self.nets.sort_unstable();
        merged(alloc, self.nets.as_slice())
    }

    /// How often a round of the bundles looks at links and labels.
    pub fn looks(&self, bundles: &[Bundle]) -> u64
        ensures { result ≡ in_word (sum_by (looks_of_bundle (length self.now.links.items) self.now.nodes) bundles.now) }
    {
        looks_of(bundles, self.links.len() as u64, u64::from(self.nodes))
    }

    /// Whether routes fill a link more than at a level, or nothing is known of routes. Else no prices prove more than the level.
    pub fn may_be_fuller(&self, level: u64) -> bool
        ensures { result ≡ list_any (λ link. is_above level link.total) self.now.links.items
            || list_all (λ link. link.total.load == 0) self.now.links.items }
    {
        let mut is_unused = true;
        for link in self.links.iter() {
            if link.total.is_fuller(level) {
                return true;
            }
            is_unused &= link.total.load == 0;
        }
        is_unused
    }

    /// By how much routes overfill the links.
    pub fn excess(&self) -> u64
        ensures { result ≡ in_word (sum_by (λ link. excess_of link.total) self.now.links.items) }
    {
        let mut excess: u64 = 0;
        for link in self.links.iter() {
            excess = excess.saturating_add(link.total.excess());
        }
        excess
    }

    /// By how much routes overfill the tile edges that are not settled.
    pub fn open_excess(&self, totals: &[TileTotal], are_settled: &[bool]) -> u64
        ensures { result ≡ in_word (sum_by (open_excess_of totals.now are_settled.now) self.now.edges.items) }
    {
        let mut open: u64 = 0;
        for edge in self.edges.iter() {
            let place = edge.tile_edge as usize;
            let total = totals.get(place).copied().unwrap_or(TileTotal::NONE);
            if !are_settled.get(place).copied().unwrap_or(true) {
                open = open.saturating_add(total.excess());
            }
        }
        open
    }

    /// For each link the greatest of these prices of its tile edges.
    pub fn prices_of(&self, alloc: Global, tile_prices: &[u32]) -> Result<Vec<u64>, NoMemory>
        ensures long { IfOk result (λ prices. length prices.items ≡ length self.now.links.items) }
        ensures greatest { IfOk result (λ prices. prices.items
            ≡ fold (with_link_price tile_prices.now) (replicate (length self.now.links.items) 0) self.now.edges.items) }
    {
        let mut prices = vec![in alloc; 0u64; self.links.len()]?;
        for edge in self.edges.iter() {
            let tile_price = tile_prices.get(edge.tile_edge as usize).copied();
            if let Some(price) = prices.get_mut(edge.link as usize) {
                *price = (*price).max(u64::from(tile_price.unwrap_or(0)));
            }
        }
        Ok(prices)
    }
}

/// Adds tile edges to links, one after the other, and gives each the number of its link.
fn link_all(
    links: &mut Vec<Link>,
    edges: &mut [HotEdge],
    totals: &[TileTotal],
) -> Result<(), NoMemory>
    ensures links { OnOk result (links.new.items ≡ fold (with_hot_edge totals.now) links.old.items edges.old) }
    ensures numbers { OnOk result (edges.new ≡ with_numbers totals.now links.old.items edges.old) }
{
    for edge in edges.iter_mut() {
        let total = totals.get(edge.tile_edge as usize).copied();
        add_to_links(links, *edge, total.unwrap_or(TileTotal::NONE))?;
        let last = links.len().saturating_sub(1);
        edge.link = u32::try_from(last).unwrap_or(0);
    }
    Ok(())
}

/// Adds a tile edge to the last link, or to a new one where that joins other nodes.
fn add_to_links(links: &mut Vec<Link>, edge: HotEdge, total: TileTotal) -> Result<(), NoMemory>
    ensures { OnOk result (links.new.items ≡ with_more_at_last (with_link_for links.old.items edge) total) }
{
    if !is_last_link(links.as_slice(), edge) {
        links.push(Link {
            one: edge.one,
            other: edge.other,
            total: TileTotal::NONE,
        })?;
    }
    add_to_last(links, total);
    Ok(())
}

/// Whether the last link joins the nodes of a tile edge.
fn is_last_link(links: &[Link], edge: HotEdge) -> bool
    ensures { result ≡ is_link_of (slice_get links.now (length links.now - 1)) edge }
{
    match links.last() {
        Some(link) => link.one == edge.one && link.other == edge.other,
        None => false,
    }
}

/// Adds so much to the last link.
fn add_to_last(links: &mut Vec<Link>, more: TileTotal)
    ensures { links.new.items ≡ with_more_at_last links.old.items more }
{
    if let Some(link) = links.last_mut() {
        link.total = link.total.with(more.load, more.capacity);
    }
}
