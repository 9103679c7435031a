//! Tiles along one axis.

ghost use Rattle.std.specs.Prelude.{◌≡◌, ◌≤◌, ◌^◌, pos, ◌<ℤ◌};
ghost use Rattle.grid_base.specs.Limits.{max_vertices};
ghost use Rattle.grid_graph.specs.Layouts.{IsPosition, IsTileSize};
ghost use Rattle.grid_graph.specs.Tiles as tiles;

/// The tile that holds the position x, of `count` tiles from the origin on.
pub fn tile_index(origin: i64, tile: i64, count: u32, x: i64) -> Option<u32>
    requires origin { IsPosition origin }
    requires tile { IsTileSize tile }
    requires some { 1 ≤ count }
    requires many { count ≤ max_vertices }
    requires x { IsPosition x }
    ensures { result ≡ tiles.tile_index origin tile count x }
{
    if x < origin {
        return None;
    }
    let distance = (x - origin) as u64;
    let width = tile as u64;
    let span = u64::from(count) * width;
    if distance > span {
        return None;
    }
    if distance == span {
        return Some(count - 1);
    }
    Some((distance / width) as u32)
}

/// The position that is written for the tile of this index along an axis. It may be beyond an i64 in a grid of the
/// greatest size.
pub fn written_position(origin: i64, tile: i64, index: u32) -> i128
    ensures { result ≡ tiles.written_position origin tile index }
{
    let tile = u128::from(tile.unsigned_abs());
    let offset = u128::from(index) * tile + tile / 2;
    i128::from(origin) + offset as i128
}

/// The same position, where it is known to be an i64.
pub fn fitting_position(origin: i64, tile: i64, index: u32) -> i64
    requires origin { IsPosition origin }
    requires fits { tiles.written_position origin tile index <ℤ pos (2 ^ 63) }
    ensures { result ≡ tiles.written_position origin tile index }
{
    written_position(origin, tile, index) as i64
}
