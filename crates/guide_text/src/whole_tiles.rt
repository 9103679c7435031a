//! Which tiles a rectangle consists of.

ghost use Rattle.std.specs.Prelude.{ℕ, ◌≡◌, ◌+◌, ◌<◌, pos, MatchOption};
ghost use Rattle.grid_graph.specs.Layouts.{IsTileSize};
ghost use Rattle.guide_text.specs.declared.tile_rect.TileRect.{TileRect};
ghost use Rattle.guide_text.specs.Borderlines as lines;
ghost use Rattle.guide_text.specs.Borderlines.{LieBetween};
ghost use Rattle.guide_text.specs.Covering.{ConsistsOf};

use crate::rect::Rect;
use crate::tile_rect::TileRect;
use grid_graph::Grid;

/// Tiles along an axis, from the first to the last.
#[derive(Clone, Copy, Drop)]
struct Stretch {
    first: u32,
    last: u32,
}

/// The number of the tile whose lower border this is, if there is one.
fn index_of(origin: i64, tile: i64, at: i64) -> Option<u64>
    requires { IsTileSize tile }
    ensures { MatchOption result ((index : ℕ) → ¬ (lines.border origin tile index ≡ at)) (λ index. lines.border origin tile index ≡ at) }
{
    if at < origin {
        return None;
    }
    let offset = at.abs_diff(origin);
    let width = tile.unsigned_abs();
    if offset % width != 0 {
        return None;
    }
    Some(offset / width)
}

/// The tiles that lie between two borders, if these part some of `count` tiles from the others.
fn tiles_between(origin: i64, tile: i64, from: i64, to: i64, count: u32) -> Option<Stretch>
    requires { IsTileSize tile }
    ensures { MatchOption result ((first last : ℕ) → ¬ LieBetween origin tile from to count first last) (λ found. LieBetween origin tile from to count found.first found.last) }
{
    let first = index_of(origin, tile, from)?;
    let end = index_of(origin, tile, to)?;
    if first >= end || end > u64::from(count) {
        return None;
    }
    Some(Stretch {
        first: first as u32,
        last: (end - 1) as u32,
    })
}

/// The layer that a rectangle names, if it is one of `count` layers.
fn layer_of(layer: i64, count: u32) -> Option<u32>
    ensures { MatchOption result ((k : ℕ) → k < count → ¬ (layer ≡ pos (k + 1))) (λ k. (k < count) × (layer ≡ pos (k + 1))) }
{
    if layer < 1 || layer > i64::from(count) {
        return None;
    }
    Some((layer - 1) as u32)
}

/// The tiles that a rectangle consists of, if it consists of whole tiles of the grid.
pub(crate) fn tiles_of(grid: &Grid, rect: Rect) -> Option<TileRect>
    ensures { MatchOption result ((tiles : TileRect) → ¬ ConsistsOf grid.now rect tiles) (λ tiles. ConsistsOf grid.now rect tiles) }
{
    let size = grid.size();
    let origin = grid.origin();
    let tile = grid.tile();
    let cols = tiles_between(origin.0, tile.0, rect.x1, rect.x2, size.cols())?;
    let rows = tiles_between(origin.1, tile.1, rect.y1, rect.y2, size.rows())?;
    let layer = layer_of(rect.layer, size.layers())?;
    Some(TileRect {
        layer,
        first_row: rows.first,
        last_row: rows.last,
        first_col: cols.first,
        last_col: cols.last,
    })
}
