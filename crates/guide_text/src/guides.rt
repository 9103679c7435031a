//! The guides of a design's routes.

ghost use Rattle.std.specs.Prelude.{◌≡◌, ◌≤◌, All, map, length, IfOk};
ghost use Rattle.grid_graph.specs.Borders.{HasBordersInRange};
ghost use Rattle.grid_graph.specs.Grids.{size_of};
ghost use Rattle.grid_graph.specs.Nets.{IsNet};
ghost use Rattle.tree_set.specs.Routings.{ArePieces};
ghost use Rattle.guide_text.specs.Covering.{AreWholeTiles};
ghost use Rattle.guide_text.specs.Guides as guides;
ghost use Rattle.guide_text.specs.Guides.{IsGuideOf, AreGuidesOf};

use crate::borders::border;
use crate::guide::Guide;
use crate::rect::{Rect, Rects};
use crate::tile_rect::TileRect;
use crate::tile_rects::tile_rects;
use grid_base::NoMemory;
use grid_graph::{Design, Grid, Name, NetSpec};
use std::alloc::Global;
use tree_set::Tree;

/// A rectangle of tiles by its corners.
fn rect_of(grid: &Grid, tiles: TileRect) -> Rect
    requires near { HasBordersInRange grid.now }
    requires whole { AreWholeTiles (size_of grid.now) tiles }
    ensures { result ≡ guides.rect_of grid.now tiles }
{
    let origin = grid.origin();
    let tile = grid.tile();
    Rect {
        x1: border(origin.0, tile.0, tiles.first_col),
        y1: border(origin.1, tile.1, tiles.first_row),
        x2: border(origin.0, tile.0, tiles.last_col + 1),
        y2: border(origin.1, tile.1, tiles.last_row + 1),
        layer: i64::from(tiles.layer + 1),
    }
}

/// Rectangles of tiles by their corners.
fn rects_of(alloc: Global, grid: &Grid, tiles: &[TileRect]) -> Result<Rects, NoMemory>
    requires near { HasBordersInRange grid.now }
    requires whole { All (AreWholeTiles (size_of grid.now)) tiles.now }
    ensures { IfOk result (λ rects. rects ≡ map (guides.rect_of grid.now) tiles.now) }
{
    let mut rects = Vec::with_capacity(alloc, tiles.len())?;
    for tile_rect in tiles {
        rects.push(rect_of(grid, *tile_rect))?;
    }
    Ok(Rects::of(rects))
}

/// The guide of a net with this set of pieces.
fn guide_of(alloc: Global, grid: &Grid, net: &NetSpec, tree: &Tree) -> Result<Guide, NoMemory>
    requires near { HasBordersInRange grid.now }
    requires net { IsNet grid.now net.now }
    requires pieces { ArePieces (size_of grid.now) tree.now }
    ensures { IfOk result (IsGuideOf grid.now net.now tree.now) }
{
    let tiles = tile_rects(alloc, grid.size(), tree, net.terminals.list())?;
    let rects = rects_of(alloc, grid, tiles.as_slice())?;
    let name = Vec::from_slice(alloc, net.name.list())?;
    Ok(Guide {
        name: Name::of(name),
        id: net.id,
        rects,
    })
}

/// The guides of all nets, in file order, where `trees` has the set of each net.
pub fn guides_of(alloc: Global, design: &Design, trees: &[Tree]) -> Result<Vec<Guide>, NoMemory>
    requires near { HasBordersInRange design.now.grid }
    requires one_each { length trees.now ≡ length design.now.nets }
    requires pieces { All (ArePieces (size_of design.now.grid)) trees.now }
    ensures { IfOk result (λ guides. AreGuidesOf design.now.grid design.now.nets trees.now guides.items) }
{
    let nets = design.nets.list();
    let mut guides = Vec::new(alloc);
    for k in 0..trees.len() {
        guides.push(guide_of(alloc, &design.grid, &nets[k], &trees[k])?)?;
    }
    Ok(guides)
}
