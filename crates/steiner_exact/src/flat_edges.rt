//! The edges of a flat grid.

ghost use Rattle.std.specs.Prelude.{◌≡◌, IfOk};
ghost use Rattle.steiner_exact.specs.FlatPieces.{edge_flags};

use grid_base::{Edge, NoMemory, Piece, Size};
use std::alloc::Global;

/// For each edge number whether a grid of this size has that edge.
pub(crate) fn flags_of(alloc: Global, size: Size) -> Result<Vec<bool>, NoMemory>
    ensures { IfOk result (λ flags. flags.items ≡ edge_flags size) }
{
    let mut flags = Vec::new(alloc);
    for e in 0..2 * size.vertices() {
        flags.push(size.is_piece(Piece::Edge(Edge(e))))?;
    }
    Ok(flags)
}
