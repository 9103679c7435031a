//! Marking beside the plain way to find a route covered, for sets of pieces of a grid.

ghost use Rattle.std.specs.Prelude.{All, IsTrue};
ghost use Rattle.tree_set.specs.Routings.{ArePieces};

use crate::piece_sets::{are_pieces, numbered_set};
use grid_base::{Piece, Size, Vertex};
use grid_graph::{Design, Grid, Name, NetSpec};
use guide_text::{Guide, Rect, Rects, covers, guides_of, is_near};
use std::alloc::{AllocError, Global};
use std::slice::from_ref;
use std::test::Fail;
use tree_set::Tree;
use worked_designs::design_of;

/// Whether the tile is an end of the piece.
fn is_end(size: Size, piece: Piece, tile: u32) -> bool {
    if !size.is_piece(piece) {
        return false;
    }
    let (start, end) = size.ends_of(piece);
    start.0 == tile || end.0 == tile
}

/// Whether the tile is one of the route's.
fn is_on_route(size: Size, net: &NetSpec, tree: &Tree, tile: u32) -> bool {
    net.terminals
        .list()
        .iter()
        .any(|terminal| terminal.0 == tile)
        || tree.pieces().iter().any(|piece| is_end(size, *piece, tile))
}

/// Whether the whole tile lies inside the rectangle.
fn holds(grid: &Grid, rect: Rect, tile: u32) -> bool {
    let size = grid.size();
    if tile >= size.vertices() {
        return false;
    }
    let place = size.place_of(Vertex(tile));
    let (origin, extent) = (grid.origin(), grid.tile());
    let x = origin
        .0
        .wrapping_add(i64::from(place.col).wrapping_mul(extent.0));
    let y = origin
        .1
        .wrapping_add(i64::from(place.row).wrapping_mul(extent.1));
    rect.layer == i64::from(place.layer) + 1
        && rect.x1 <= x
        && rect.y1 <= y
        && x.wrapping_add(extent.0) <= rect.x2
        && y.wrapping_add(extent.1) <= rect.y2
}

/// Whether the rectangle is as large as the tiles inside it.
fn is_filled(grid: &Grid, rect: Rect) -> bool {
    let extent = grid.tile();
    let mut area: i64 = 0;
    for tile in 0..grid.size().vertices() {
        if holds(grid, rect, tile) {
            area = area.wrapping_add(extent.0.wrapping_mul(extent.1));
        }
    }
    let width = rect.x2.wrapping_sub(rect.x1);
    let height = rect.y2.wrapping_sub(rect.y1);
    rect.x1 < rect.x2 && rect.y1 < rect.y2 && width.wrapping_mul(height) == area
}

/// Whether each rectangle is filled by tiles, and each tile of the grid lies inside one of them just where it is one of the route's.
fn covers_plainly(grid: &Grid, net: &NetSpec, tree: &Tree, rects: &[Rect]) -> bool {
    for tile in 0..grid.size().vertices() {
        let is_covered = rects.iter().any(|rect| holds(grid, *rect, tile));
        if is_on_route(grid.size(), net, tree, tile) != is_covered {
            return false;
        }
    }
    rects.iter().all(|rect| is_filled(grid, *rect))
}

/// The rectangle of a number: corners on borders, behind the grid and in the middle of a tile, in any order, and layers from 0 on.
fn numbered_rect(number: u32) -> Rect {
    Rect {
        x1: border(number),
        x2: border(number / 5),
        y1: border(number / 25),
        y2: border(number / 125),
        layer: i64::from(number / 625 % 4),
    }
}

fn border(number: u32) -> i64 {
    let place = i64::from(number % 5);
    if place < 4 { place * 10 } else { 15 }
}

/// Whether the guide covers the route of the first net.
fn is_covered(alloc: Global, design: &Design, tree: &Tree, guide: &Guide) -> Result<bool, Fail> {
    if design.nets.list().is_empty() || !are_pieces(design.grid.size(), tree.pieces()) {
        return Err(Fail::new("no such set"));
    }
    Ok(covers(alloc, design, 0, tree, guide)?)
}

/// Whether both ways say the same of a guide.
fn ways_agree(alloc: Global, design: &Design, tree: &Tree, guide: &Guide) -> Result<bool, Fail> {
    let net = design.nets.list().first().ok_or("a net")?;
    let plain = covers_plainly(&design.grid, net, tree, guide.rects.list());
    Ok(is_covered(alloc, design, tree, guide)? == plain)
}

/// A guide with some rectangles and one more.
fn guide_with(alloc: Global, some: &[Rect], one: Rect) -> Result<Guide, AllocError> {
    let mut rects = Vec::from_slice(alloc, some)?;
    rects.push(one)?;
    Ok(Guide {
        name: Name::of(Vec::new(alloc)),
        id: 0,
        rects: Rects::of(rects),
    })
}

/// Whether both ways say the same of such a guide.
fn agree(
    alloc: Global,
    design: &Design,
    tree: &Tree,
    some: &[Rect],
    one: Rect,
) -> Result<bool, Fail> {
    let guide = guide_with(alloc, some, one)?;
    ways_agree(alloc, design, tree, &guide)
}

/// Whether both ways say the same of guides with the last of these rectangles or one of 40 others: alone, with all of these, and
/// with all but the last.
fn near_guides_agree(
    alloc: Global,
    design: &Design,
    tree: &Tree,
    rects: &[Rect],
    number: u32,
) -> Result<bool, Fail> {
    let (last, others) = rects.split_last().ok_or("a rectangle")?;
    for k in 0..41 {
        let one = if k < 40 {
            numbered_rect(number.wrapping_mul(7).wrapping_add(k * 61) % 2500)
        } else {
            *last
        };
        if !agree(alloc, design, tree, rects, one)?
            || !agree(alloc, design, tree, others, one)?
            || !agree(alloc, design, tree, &[], one)?
        {
            return Ok(false);
        }
    }
    Ok(true)
}

fn all_are_pieces(size: Size, trees: &[Tree]) -> bool
    ensures { IsTrue result → All (ArePieces size) trees.now }
{
    trees.iter().all(|tree| are_pieces(size, tree.pieces()))
}

/// The guides of a design, one for each of these sets.
fn guides_on(alloc: Global, design: &Design, trees: &[Tree]) -> Result<Vec<Guide>, Fail> {
    if !is_near(&design.grid)
        || trees.len() != design.nets.list().len()
        || !all_are_pieces(design.grid.size(), trees)
    {
        return Err(Fail::new("no such sets"));
    }
    Ok(guides_of(alloc, design, trees)?)
}

/// Whether the first guide covers the route of the set, and both ways say the same of others that come near it.
fn guide_agrees(
    alloc: Global,
    design: &Design,
    tree: &Tree,
    guides: &[Guide],
    number: u32,
) -> Result<bool, Fail> {
    let guide = guides.first().ok_or("a guide")?;
    Ok(
        is_covered(alloc, design, tree, guide)?
            && near_guides_agree(alloc, design, tree, guide.rects.list(), number)?,
    )
}

/// Whether it is so for the guide of the set of a number, which is that of the design's one net.
fn set_agrees(alloc: Global, design: &Design, size: Size, number: u32) -> Result<bool, Fail> {
    let tree = numbered_set(alloc, size, number)?;
    let guides = guides_on(alloc, design, from_ref(&tree))?;
    guide_agrees(alloc, design, &tree, &guides, number)
}

/// The same, where a field gives the design.
pub(crate) fn covering_agrees(
    alloc: Global,
    given: &'static str,
    size: Size,
    number: u32,
) -> Result<bool, Fail> {
    let design = design_of(alloc, given)?;
    set_agrees(alloc, &design, size, number)
}
