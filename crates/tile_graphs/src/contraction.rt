//! The graph of regions and of the hot tile edges between them.

use crate::bundles::Bundle;
use crate::ends::Ends;
use crate::part::Part;
use crate::regions::{ends_of, regions_of, touching_regions};
use crate::tile_view::TileView;
use grid_base::{NoMemory, Size};
use std::alloc::Global;

/// Stands for the part of a node that is in none.
const NO_PART: u32 = u32::MAX;

/// A region by its part and its number there.
#[derive(Debug, Drop, Clone, Copy, PartialEq, Eq)]
struct Node {
    part: u32,
    number: u32,
}

impl Node {
    /// The region of the most tiles, which is node 0 of each part.
    const OUTSIDE: Node = Node {
        part: NO_PART,
        number: 0,
    };

    /// The number in a part: that of the outside where the node is in another one.
    fn number_in(self, part: u32) -> u32 {
        if self.part == part { self.number } else { 0 }
    }
}

/// What is left of the tiles where all but the hot tile edges cost nothing: each region is a node.
///
/// What nets cost at least stays the same, since a way inside a region costs nothing. Without the outside, which is the region
/// of the most tiles, the graph falls apart: what a net costs is the sum of what it costs in each part.
#[derive(Drop)]
pub struct Contraction {
    pub parts: Vec<Part>,
    nodes: Vec<Node>,
}

impl Contraction {
    /// Contracts all open tile edges but the hot ones. The links are those of the hot ones that lie between two regions: the
    /// others can be gone around.
    pub fn of(alloc: Global, view: &TileView, are_hot: &[bool]) -> Result<Contraction, NoMemory> {
        let mut contraction = Contraction::without_links(alloc, view, are_hot)?;
        for (tile_edge, is_hot) in (0..u32::MAX).zip(are_hot) {
            if *is_hot {
                contraction.link(view.size, tile_edge)?;
            }
        }
        for part in contraction.parts.iter_mut() {
            part.make_links(view.totals.as_slice())?;
        }
        contraction.bring_nets(alloc, view)?;
        Ok(contraction)
    }

    /// The parts with their nodes. What stands for a region, or for a part, is its lowest tile, which so comes first.
    fn without_links(
        alloc: Global,
        view: &TileView,
        are_hot: &[bool],
    ) -> Result<Contraction, NoMemory> {
        let tiles = view.tiles();
        let mut regions = regions_of(alloc, view, are_hot)?;
        let outside = regions.greatest(alloc, tiles)?;
        let mut touching = touching_regions(alloc, view, are_hot, &mut regions, outside)?;
        let mut contraction = Contraction {
            parts: Vec::new(alloc),
            nodes: vec![in alloc; Node::OUTSIDE; tiles as usize]?,
        };
        for tile in 0..tiles {
            let region = regions.find(tile);
            if region != tile {
                contraction.set_node(tile, contraction.node_of(region));
            } else if region != outside {
                contraction.add_region(alloc, region, touching.find(region))?;
            }
        }
        Ok(contraction)
    }

    /// Brings the nets into the parts in which they have ends.
    fn bring_nets(&mut self, alloc: Global, view: &TileView) -> Result<(), NoMemory> {
        let mut nodes = Vec::new(alloc);
        for net in view.nets.list() {
            self.find_nodes(view.nets.tiles_of(*net), &mut nodes)?;
            self.bring_net(nodes.as_slice(), net.demand)?;
        }
        Ok(())
    }

    /// Brings a net once into each part that one of its nodes is in.
    fn bring_net(&mut self, nodes: &[Node], demand: u64) -> Result<(), NoMemory> {
        for (place, node) in nodes.iter().enumerate() {
            if !has_part(nodes, place, node.part)
                && let Some(part) = self.parts.get_mut(node.part as usize)
            {
                let ends = ends_in(nodes, node.part);
                part.add_net(Bundle { ends, demand })?;
            }
        }
        Ok(())
    }

    /// Gives a region the next number in the part of the region that stands for it, which is a new one where it is that region.
    fn add_region(&mut self, alloc: Global, region: u32, lead: u32) -> Result<(), NoMemory> {
        let part = if lead == region {
            self.add_part(alloc)?
        } else {
            self.node_of(lead).part
        };
        if let Some(joined) = self.parts.get_mut(part as usize) {
            let number = joined.add_node();
            self.set_node(region, Node { part, number });
        }
        Ok(())
    }

    /// The number of one part more.
    fn add_part(&mut self, alloc: Global) -> Result<u32, NoMemory> {
        let Ok(part) = u32::try_from(self.parts.len()) else {
            return Err(NoMemory);
        };
        self.parts.push(Part::new(alloc))?;
        Ok(part)
    }

    /// Adds a tile edge where it lies between two regions.
    fn link(&mut self, size: Size, tile_edge: u32) -> Result<(), NoMemory> {
        let (start, end) = ends_of(size, tile_edge);
        let (one, other) = (self.node_of(start), self.node_of(end));
        if one != other
            && let Some(part) = self.parts.get_mut(one.part.min(other.part) as usize)
        {
            part.add_edge(one.number, other.number, tile_edge)?;
        }
        Ok(())
    }

    /// Makes a list of the nodes of tiles, each once.
    fn find_nodes(&self, tiles: &[u32], nodes: &mut Vec<Node>) -> Result<(), NoMemory> {
        nodes.clear();
        for tile in tiles {
            let node = self.node_of(*tile);
            if !nodes.contains(&node) {
                nodes.push(node)?;
            }
        }
        Ok(())
    }

    /// The node of a tile's region.
    fn node_of(&self, tile: u32) -> Node {
        self.nodes
            .get(tile as usize)
            .copied()
            .unwrap_or(Node::OUTSIDE)
    }

    fn set_node(&mut self, tile: u32, node: Node) {
        if let Some(place) = self.nodes.get_mut(tile as usize) {
            *place = node;
        }
    }
}

/// The ends that a net with these nodes has in a part, where all nodes of other parts are the outside.
fn ends_in(nodes: &[Node], part: u32) -> Ends {
    let mut ends = Ends::NONE;
    for node in nodes {
        ends = ends.with(node.number_in(part));
    }
    ends
}

/// Whether one of the nodes before a place is in a part.
fn has_part(nodes: &[Node], place: usize, part: u32) -> bool {
    for node in nodes.iter().take(place) {
        if node.part == part {
            return true;
        }
    }
    false
}
