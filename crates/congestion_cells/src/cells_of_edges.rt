//! The cells of all tile edges.

ghost use Rattle.std.specs.Prelude.{◌≡◌, IfOk, length, slice_index};
ghost use Rattle.grid_graph.specs.Grids.{edge_numbers, size_of};
ghost use Rattle.congestion_cells.specs.Cells as words;
ghost use Rattle.congestion_cells.specs.TileUses.{AreLayersOf};

use crate::cell::Cell;
use crate::shown_layers::ShownLayers;
use crate::tile_uses::{tile_edges, tile_use};
use grid_base::NoMemory;
use grid_graph::Grid;
use std::alloc::Global;

/// The cell of each tile edge, by the loads of all edges.
pub fn edge_cells(
    alloc: Global,
    grid: &Grid,
    loads: &[u64],
    shown: ShownLayers,
) -> Result<Vec<Cell>, NoMemory>
    requires layers { AreLayersOf (size_of grid.now) shown }
    requires loads { length loads.now ≡ edge_numbers grid.now }
    ensures { IfOk result (λ cells. cells.items ≡ words.edge_cells grid.now (slice_index loads.now) shown) }
{
    let mut cells = Vec::new(alloc);
    for e in 0..tile_edges(grid.size()) {
        cells.push(Cell::of(tile_use(grid, loads, shown, e)))?;
    }
    Ok(cells)
}
