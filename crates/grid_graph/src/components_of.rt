//! The components that a ground's pieces join.

ghost use Rattle.std.specs.Prelude.{IfOk};
ghost use Rattle.grid_graph.specs.Grids.{size_of, Allows};
ghost use Rattle.grid_graph.specs.Components.{AreComponents};

use crate::components::Components;
use crate::grid::Grid;
use crate::ground::Ground;
use crate::ground_pieces::GroundPieces;
use grid_base::{NoMemory, Vertex, flood};
use std::alloc::Global;

/// The number of each vertex's component: two vertices have the same one exactly where the ground's pieces join them.
///
/// Takes time linear in the number of vertices.
pub fn components_of(alloc: Global, grid: &Grid, over: Ground) -> Result<Vec<u32>, NoMemory>
    ensures { IfOk result (λ components. AreComponents (size_of grid.now) (Allows grid.now over) components.items) }
{
    let size = grid.size();
    let pieces = GroundPieces { grid, over };
    let mut components = Components::blank(alloc, size)?;
    let mut met = Vec::new(alloc);
    for v in 0..size.vertices() {
        components.give(v);
        flood(size, &pieces, &mut components, Vertex(v), &mut met)?;
    }
    Ok(components.into_list())
}
