//! The rectangles of tiles.

ghost use Rattle.std.specs.Prelude.{ℕ, ◌≡◌, ◌+◌, ◌≤◌, ◌<◌, ◌↔◌, All, Contains, IfOk, OnOk, MatchOption, IsTrue, length, slice_index};
ghost use Rattle.grid_base.specs.Numbers.{vertices, IsVertex};
ghost use Rattle.guide_text.specs.declared.tile_rect.TileRect.{TileRect};
ghost use Rattle.guide_text.specs.RouteTiles.{route_tiles};
ghost use Rattle.guide_text.specs.TileRects.{IsTileRun, IsTileRect, AreTileRects, AreFirstRects, StandsOn, corner};
ghost use Rattle.tree_set.specs.Routings.{ArePieces};

use crate::tile_rect::TileRect;
use crate::tiles::Tiles;
use grid_base::{NoMemory, Size, Vertex};
use std::alloc::Global;
use tree_set::Tree;

/// Whether the row below has a run of these columns. The run's first tile stands at this place of the list, so that one below, where
/// nothing else is near, stands before it.
fn has_run_below(
    tiles: &Tiles,
    at: usize,
    layer: u32,
    row: u32,
    first_col: u32,
    last_col: u32,
) -> bool
    ensures { IsTrue result ↔ ((below : ℕ) × (below + 1 ≡ row) × IsTileRun tiles.now.size tiles.now.numbers.items layer below first_col last_col) }
{
    row > 0 && tiles.is_run(layer, row - 1, first_col, last_col, at.wrapping_sub(1))
}

/// The last row up to which a run has one of the same columns above it, without a gap.
fn last_row(
    tiles: &Tiles,
    at: usize,
    layer: u32,
    first_row: u32,
    first_col: u32,
    last_col: u32,
) -> u32
    requires { IsTileRun tiles.now.size tiles.now.numbers.items layer first_row first_col last_col }
    ensures order { first_row ≤ result }
    ensures each { (row : ℕ) → first_row ≤ row → row ≤ result → IsTileRun tiles.now.size tiles.now.numbers.items layer row first_col last_col }
    ensures above { ¬ IsTileRun tiles.now.size tiles.now.numbers.items layer (result + 1) first_col last_col }
{
    let mut row = first_row;
    let mut near = at.wrapping_add(1);
    while tiles.is_run(layer, row + 1, first_col, last_col, near) {
        row += 1;
        near = near.wrapping_add(1);
    }
    row
}

/// The rectangle whose lowest run this is, if there is one. The run's first tile stands at this place of the list.
fn rect_on(
    tiles: &Tiles,
    at: usize,
    layer: u32,
    row: u32,
    first_col: u32,
    last_col: u32,
) -> Option<TileRect>
    requires { IsTileRun tiles.now.size tiles.now.numbers.items layer row first_col last_col }
    ensures { MatchOption result ((rect : TileRect) → StandsOn layer row first_col rect → ¬ IsTileRect tiles.now.size tiles.now.numbers.items rect) (λ rect. IsTileRect tiles.now.size tiles.now.numbers.items rect × StandsOn layer row first_col rect) }
{
    if has_run_below(tiles, at, layer, row, first_col, last_col) {
        return None;
    }
    let last_row = last_row(tiles, at, layer, row, first_col, last_col);
    Some(TileRect {
        layer,
        first_row: row,
        last_row,
        first_col,
        last_col,
    })
}

/// The rectangle whose lower-left tile stands at this place of the list, if there is one.
fn rect_at(tiles: &Tiles, at: usize) -> Option<TileRect>
    requires { at < length tiles.now.numbers.items }
    ensures { MatchOption result ((rect : TileRect) → corner tiles.now.size rect ≡ slice_index tiles.now.numbers.items at → ¬ IsTileRect tiles.now.size tiles.now.numbers.items rect) (λ rect. IsTileRect tiles.now.size tiles.now.numbers.items rect × (corner tiles.now.size rect ≡ slice_index tiles.now.numbers.items at)) }
{
    if tiles.is_inner(at) {
        return None;
    }
    let place = tiles.size.place_of(Vertex(tiles.list()[at]));
    let last_col = tiles.run_end(at, place);
    rect_on(tiles, at, place.layer, place.row, place.col, last_col)
}

/// Puts the rectangle whose lower-left tile stands at this place of the list behind those of earlier tiles, if there is one.
fn add_rect(tiles: &Tiles, place: usize, rects: &mut Vec<TileRect>) -> Result<(), NoMemory>
    requires place { place < length tiles.now.numbers.items }
    requires first { AreFirstRects tiles.now.size tiles.now.numbers.items place rects.old.items }
    ensures { OnOk result (AreFirstRects tiles.now.size tiles.now.numbers.items (place + 1) rects.new.items) }
{
    match rect_at(tiles, place) {
        None => Ok(()),
        Some(rect) => Ok(rects.push(rect)?),
    }
}

/// The rectangles of tiles, in order.
fn rects_of(alloc: Global, tiles: &Tiles) -> Result<Vec<TileRect>, NoMemory>
    ensures { IfOk result (λ rects. AreTileRects tiles.now.size tiles.now.numbers.items rects.items) }
{
    let mut rects = Vec::with_capacity(alloc, tiles.list().len())?;
    for place in 0..tiles.list().len() {
        add_rect(tiles, place, &mut rects)?;
    }
    Ok(rects)
}

/// The rectangles of a route's tiles, in order. Takes about n log n steps for n tiles.
pub(crate) fn tile_rects(
    alloc: Global,
    size: Size,
    tree: &Tree,
    terminals: &[Vertex],
) -> Result<Vec<TileRect>, NoMemory>
    requires pieces { ArePieces size tree.now }
    requires terminals { All (λ t. IsVertex size t.0) terminals.now }
    ensures { IfOk result (λ rects. AreTileRects size (route_tiles size tree.now terminals.now) rects.items) }
{
    let tiles = Tiles::of_route(alloc, size, tree, terminals)?;
    rects_of(alloc, &tiles)
}
