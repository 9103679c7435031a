//! The counts of edges of a kind along lines.

ghost use Rattle.std.specs.Prelude.{◌≡◌, IfOk};
ghost use Rattle.grid_base.specs.Numbers.{start_of, IsVertex};
ghost use Rattle.grid_graph.specs.Grids.{size_of};
ghost use Rattle.straight_runs.specs.LineCounts as counts;
ghost use Rattle.straight_runs.specs.LineCounts.{AreCounts};

use crate::direction::Direction;
use grid_base::{NoMemory, Piece, Vertex};
use grid_graph::{Grid, Kind};
use std::alloc::Global;

/// Whether two kinds are one.
fn is_same_kind(a: Kind, b: Kind) -> bool
    ensures { result ≡ counts.is_same_kind a b }
{
    match (a, b) {
        (Kind::Open, Kind::Open) => true,
        (Kind::Choked, Kind::Choked) => true,
        (Kind::Wall, Kind::Wall) => true,
        _ => false,
    }
}

/// Whether the piece is an edge of this kind.
fn is_of_kind(grid: &Grid, kind: Kind, piece: Piece) -> bool
    requires { IsVertex (size_of grid.now) (start_of piece) }
    ensures { result ≡ counts.is_of_kind grid.now kind piece }
{
    match piece {
        Piece::Edge(e) => is_same_kind(grid.kind(e), kind),
        Piece::Via(_) => false,
    }
}

/// For each vertex how many edges of this kind lead to it in a direction, one behind the other or with others between them.
pub(crate) fn counts_along(
    alloc: Global,
    grid: &Grid,
    kind: Kind,
    direction: Direction,
) -> Result<Vec<u32>, NoMemory>
    ensures { IfOk result (λ counts. AreCounts grid.now kind direction counts.items) }
{
    let vertices = grid.size().vertices();
    let rise = direction.rise(grid.size());
    let mut counts = vec![in alloc; 0u32; vertices as usize]?;
    for v in rise..vertices {
        let before = v - rise;
        let edge = direction.piece_from(Vertex(before));
        counts[v as usize] = counts[before as usize] + u32::from(is_of_kind(grid, kind, edge));
    }
    Ok(counts)
}
