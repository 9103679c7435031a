//! The tiles of terminals.

ghost use Rattle.std.specs.Prelude.{◌≡◌, IfOk, length};
ghost use Rattle.grid_graph.specs.Flat.{tile_of};
ghost use Rattle.grid_graph.specs.TilePieces.{tiles_of};

use grid_base::{NoMemory, Size, Vertex};
use std::alloc::Global;

/// The tile of a vertex, as a vertex of the flat grid.
pub fn tile_under(size: Size, v: Vertex) -> Vertex
    ensures { result.0 ≡ tile_of size v.0 }
{
    Vertex(v.0 % (size.cols() * size.rows()))
}

/// The tile of each terminal, as a vertex of the flat grid.
pub fn tiles_of(alloc: Global, size: Size, terminals: &[Vertex]) -> Result<Vec<Vertex>, NoMemory>
    ensures tiles { IfOk result (λ tiles. tiles.items ≡ tiles_of size terminals.now) }
    ensures long { IfOk result (λ tiles. length tiles.items ≡ length terminals.now) }
{
    let mut tiles = Vec::new(alloc);
    for terminal in terminals {
        tiles.push(tile_under(size, *terminal))?;
    }
    Ok(tiles)
}
