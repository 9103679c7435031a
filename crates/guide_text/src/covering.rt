//! Whether a guide covers a route.

ghost use Rattle.std.specs.Prelude.{◌≡◌, ◌+◌, ◌≤◌, ◌<◌, ◌↔◌, All, IfOk, IsTrue, MatchBool, length};
ghost use Rattle.grid_base.specs.Lists.{At};
ghost use Rattle.grid_base.specs.Numbers as numbers;
ghost use Rattle.grid_base.specs.Numbers.{IsInside};
ghost use Rattle.grid_graph.specs.declared.net_spec.NetSpec.{NetSpec};
ghost use Rattle.grid_graph.specs.Grids.{size_of};
ghost use Rattle.tree_set.specs.Routings.{ArePieces};
ghost use Rattle.guide_text.specs.Covering.{AreWholeTiles, IsAmong, IsCovered, IsInsideRect, IsTiled, Covers};
ghost use Rattle.guide_text.specs.Marking.{AreMarked, HasEach, IsInSpan, IsInRow};

use crate::guide::Guide;
use crate::rect::Rect;
use crate::tile_rect::TileRect;
use crate::tiles::Tiles;
use crate::whole_tiles::tiles_of;
use grid_base::{NoMemory, Place, Size};
use grid_graph::{Design, Grid};
use std::alloc::Global;
use tree_set::Tree;

/// Marks the tiles with the numbers from `first` on that stand before `end`, up to the first one that is not in the list.
/// Answers whether all are there.
fn mark_numbers(tiles: &Tiles, first: u32, end: u32, marks: &mut Vec<bool>) -> bool
    requires order { first ≤ end }
    requires long { length marks.old.items ≡ length tiles.now.numbers.items }
    ensures { MatchBool result (AreMarked tiles.now.numbers.items (IsInSpan first end) marks.old.items marks.new.items) (¬ HasEach tiles.now.numbers.items (IsInSpan first end)) }
{
    let mut near = 0;
    for number in first..end {
        match tiles.place_of_number(number, near) {
            None => return false,
            Some(at) => {
                marks[at] = true;
                near = at + 1;
            }
        }
    }
    true
}

/// Marks so many tiles of a row, from this one on, as far as they are in the list. Answers whether all are there.
fn mark_row(size: Size, tiles: &Tiles, from: Place, count: u32, marks: &mut Vec<bool>) -> bool
    requires long { length marks.old.items ≡ length tiles.now.numbers.items }
    requires inside { IsInside size from }
    requires within { from.col + count ≤ numbers.cols size }
    ensures { MatchBool result (AreMarked tiles.now.numbers.items (IsInRow size from count) marks.old.items marks.new.items) (¬ HasEach tiles.now.numbers.items (IsInRow size from count)) }
{
    match size.vertex_of(from) {
        None => false,
        Some(first) => mark_numbers(tiles, first.0, first.0 + count, marks),
    }
}

/// Marks the tiles of a rectangle, row by row, as far as they are in the list. Answers whether all are there.
fn mark_tiles(size: Size, tiles: &Tiles, rect: TileRect, marks: &mut Vec<bool>) -> bool
    requires long { length marks.old.items ≡ length tiles.now.numbers.items }
    requires whole { AreWholeTiles size rect }
    ensures { MatchBool result (AreMarked tiles.now.numbers.items (IsAmong size rect) marks.old.items marks.new.items) (¬ HasEach tiles.now.numbers.items (IsAmong size rect)) }
{
    let count = rect.last_col - rect.first_col + 1;
    for row in rect.first_row..rect.last_row + 1 {
        let from = Place {
            col: rect.first_col,
            row,
            layer: rect.layer,
        };
        if !mark_row(size, tiles, from, count, marks) {
            return false;
        }
    }
    true
}

/// Marks the tiles inside a rectangle, as far as they are in the list. Answers whether it consists of whole tiles and all of these
/// are there.
fn mark_rect(grid: &Grid, tiles: &Tiles, rect: Rect, marks: &mut Vec<bool>) -> bool
    requires long { length marks.old.items ≡ length tiles.now.numbers.items }
    ensures { MatchBool result (IsTiled grid.now rect × AreMarked tiles.now.numbers.items (IsInsideRect grid.now rect) marks.old.items marks.new.items) (¬ (IsTiled grid.now rect × HasEach tiles.now.numbers.items (IsInsideRect grid.now rect))) }
{
    match tiles_of(grid, rect) {
        None => false,
        Some(inside) => mark_tiles(grid.size(), tiles, inside, marks),
    }
}

/// Marks the tiles inside rectangles, as far as they are in the list. Answers whether each rectangle consists of whole tiles and all
/// of these are there.
fn mark_rects(grid: &Grid, tiles: &Tiles, rects: &[Rect], marks: &mut Vec<bool>) -> bool
    requires long { length marks.old.items ≡ length tiles.now.numbers.items }
    ensures { MatchBool result (All (IsTiled grid.now) rects.now × AreMarked tiles.now.numbers.items (IsCovered grid.now rects.now) marks.old.items marks.new.items) (¬ (All (IsTiled grid.now) rects.now × HasEach tiles.now.numbers.items (IsCovered grid.now rects.now))) }
{
    for rect in rects {
        if !mark_rect(grid, tiles, *rect, marks) {
            return false;
        }
    }
    true
}

/// Whether a guide covers the route of the net at this place of the list, where `tree` is the net's set. Any guide may come, and its
/// name and id are not asked. For n tiles and r rectangles it takes about n r log n steps.
pub fn covers(
    alloc: Global,
    design: &Design,
    net: usize,
    tree: &Tree,
    guide: &Guide,
) -> Result<bool, NoMemory>
    requires net { net < length design.now.nets }
    requires pieces { ArePieces (size_of design.now.grid) tree.now }
    ensures { (n : NetSpec) → At design.now.nets net n → IfOk result (λ yes. IsTrue yes ↔ Covers design.now.grid n tree.now guide.now) }
{
    let terminals = design.nets.list()[net].terminals.list();
    let tiles = Tiles::of_route(alloc, design.grid.size(), tree, terminals)?;
    let mut marks = vec![in alloc; false; tiles.list().len()]?;
    if !mark_rects(&design.grid, &tiles, guide.rects.list(), &mut marks) {
        return Ok(false);
    }
    Ok(!marks.as_slice().contains(&false))
}
