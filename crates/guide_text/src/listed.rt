//! The tiles of a route, one by one.

ghost use Rattle.std.specs.Prelude.{◌≡◌, flat_map, IfOk};
ghost use Rattle.tree_set.specs.Routings.{ArePieces};
ghost use Rattle.guide_text.specs.RouteTiles.{ends_of, route_tiles};

use grid_base::{NoMemory, Size, Vertex};
use std::alloc::Global;
use tree_set::Tree;

/// The ends of the pieces of a set, with room for so many further numbers.
fn ends_of_all(alloc: Global, size: Size, tree: &Tree, further: usize) -> Result<Vec<u32>, NoMemory>
    requires { ArePieces size tree.now }
    ensures { IfOk result (λ ends. ends.items ≡ flat_map (ends_of size) tree.now) }
{
    let count = tree
        .pieces()
        .len()
        .saturating_mul(2)
        .saturating_add(further);
    let mut ends = Vec::with_capacity(alloc, count)?;
    for piece in tree.pieces() {
        let (start, end) = size.ends_of(*piece);
        ends.push(start.0)?;
        ends.push(end.0)?;
    }
    Ok(ends)
}

/// The ends of the pieces of a set, and then the terminals.
pub(crate) fn listed(
    alloc: Global,
    size: Size,
    tree: &Tree,
    terminals: &[Vertex],
) -> Result<Vec<u32>, NoMemory>
    requires { ArePieces size tree.now }
    ensures { IfOk result (λ tiles. tiles.items ≡ route_tiles size tree.now terminals.now) }
{
    let mut tiles = ends_of_all(alloc, size, tree, terminals.len())?;
    for terminal in terminals {
        tiles.push(terminal.0)?;
    }
    Ok(tiles)
}
