//! Regions of tiles.

ghost use Rattle.std.specs.Prelude.{◌≡◌, ◌<◌, ◌≤◌, ℕ, IfOk, length, slice_index};
ghost use Rattle.grid_graph.specs.Flat.{tiles};
ghost use Rattle.groups.specs.Joined.{AreJoined, AreJoinedBy, IsParent, IsParentOr};
ghost use Rattle.tile_graphs.specs.TileEdges.{far_tile, near_tile};

use crate::tile_view::TileView;
use grid_base::{Axis, Edge, NoMemory, Size};
use groups::Groups;
use std::alloc::Global;

/// Tiles in regions.
#[derive(Drop)]
pub(crate) struct Regions {
    groups: Groups,
}

impl Regions {
    /// Each tile is a region.
    pub fn single(alloc: Global, size: Size) -> Result<Regions, NoMemory>
        ensures long { IfOk result (λ regions. length regions.groups.parents.items ≡ tiles size) }
        ensures own { IfOk result (λ regions. (tile : ℕ) → tile < tiles size → slice_index regions.groups.parents.items tile ≡ tile) }
    {
        let groups = Groups::single(alloc, (size.cols() * size.rows()) as usize)?;
        Ok(Regions { groups })
    }

    /// The tile that stands for a region: that of one of its tiles, which is its lowest.
    pub fn find(&mut self, tile: u32) -> u32
        ensures within { result ≤ tile }
        ensures long { length self.new.groups.parents.items ≡ length self.old.groups.parents.items }
        ensures joined { tile < length self.old.groups.parents.items → AreJoined (IsParent self.old.groups.parents.items) tile result }
        ensures stay { AreJoinedBy (IsParent self.old.groups.parents.items) self.new.groups.parents.items }
    {
        if (tile as usize) < self.groups.parents.len() {
            self.groups.root(tile as usize) as u32
        } else {
            tile
        }
    }

    /// The region of the most tiles, of which there are so many; the lowest one at a tie.
    pub fn greatest(&mut self, alloc: Global, tiles: u32) -> Result<u32, NoMemory>
        ensures within { IfOk result (λ tile. 0 < tiles → tile < tiles) }
        ensures long { length self.new.groups.parents.items ≡ length self.old.groups.parents.items }
    {
        let mut counts = vec![in alloc; 0u32; tiles as usize]?;
        for tile in 0..tiles {
            if let Some(count) = counts.get_mut(self.find(tile) as usize) {
                *count = count.saturating_add(1);
            }
        }
        Ok(place_of_greatest(counts.as_slice(), tiles))
    }

    /// Makes one region of those of two tiles.
    pub fn join(&mut self, one: u32, other: u32)
        ensures long { length self.new.groups.parents.items ≡ length self.old.groups.parents.items }
        ensures stay { AreJoinedBy (IsParentOr self.old.groups.parents.items one other) self.new.groups.parents.items }
    {
        let tiles = self.groups.parents.len();
        if (one as usize) < tiles && (other as usize) < tiles {
            self.groups.unite(one as usize, other as usize);
        }
    }

    /// Makes one region of two, if none is the outside.
    fn join_inside(&mut self, one: u32, other: u32, outside: u32)
        ensures { length self.new.groups.parents.items ≡ length self.old.groups.parents.items }
    {
        if one != outside && other != outside {
            self.join(one, other);
        }
    }
}

/// The regions that all open tile edges but the hot ones make.
pub(crate) fn regions_of(
    alloc: Global,
    view: &TileView,
    are_hot: &[bool],
) -> Result<Regions, NoMemory>
    ensures { IfOk result (λ regions. length regions.groups.parents.items ≡ tiles view.now.size) }
{
    let mut regions = Regions::single(alloc, view.size)?;
    for ((tile_edge, total), is_hot) in (0..u32::MAX).zip(view.totals.iter()).zip(are_hot) {
        if total.is_open() && !*is_hot {
            let (start, end) = ends_of(view.size, tile_edge);
            regions.join(start, end);
        }
    }
    Ok(regions)
}

/// The regions in sets of those that the hot tile edges join without the outside.
pub(crate) fn touching_regions(
    alloc: Global,
    view: &TileView,
    are_hot: &[bool],
    regions: &mut Regions,
    outside: u32,
) -> Result<Regions, NoMemory>
    ensures { IfOk result (λ touching. length touching.groups.parents.items ≡ tiles view.now.size) }
{
    let mut touching = Regions::single(alloc, view.size)?;
    for (tile_edge, is_hot) in (0..u32::MAX).zip(are_hot) {
        let (start, end) = ends_of(view.size, tile_edge);
        if *is_hot {
            let (one, other) = (regions.find(start), regions.find(end));
            touching.join_inside(one, other, outside);
        }
    }
    Ok(touching)
}

/// The place of the greatest of so many numbers, the first one at a tie.
fn place_of_greatest(numbers: &[u32], count: u32) -> u32
    ensures within { 0 < count → result < count }
    ensures greatest { (k : ℕ) → k < count → slice_index numbers.now k ≤ slice_index numbers.now result }
    ensures first { (k : ℕ) → k < result → slice_index numbers.now k < slice_index numbers.now result }
{
    let mut place = 0;
    let mut greatest = 0;
    for other in 0..count {
        let number = numbers.get(other as usize).copied().unwrap_or(0);
        if number > greatest {
            place = other;
            greatest = number;
        }
    }
    place
}

/// The two tiles of a tile edge.
pub(crate) fn ends_of(size: Size, tile_edge: u32) -> (u32, u32)
    ensures near { result.0 ≡ near_tile tile_edge }
    ensures far { result.1 ≡ far_tile size tile_edge }
{
    let edge = Edge(tile_edge);
    let start = edge.start().0;
    let step = match edge.axis() {
        Axis::X => 1,
        Axis::Y => size.cols(),
    };
    (start, start.saturating_add(step))
}
