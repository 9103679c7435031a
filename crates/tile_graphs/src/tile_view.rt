//! Designs seen from above.

ghost use Rattle.std.specs.Prelude.{◌≡◌, ◌*◌, IfOk, length};
ghost use Rattle.grid_graph.specs.Flat.{tiles};
ghost use Rattle.grid_graph.specs.Grids as grids;
ghost use Rattle.tile_graphs.specs.Totals.{totals_of};

use crate::tile_nets::TileNets;
use crate::tile_use::{TileTotal, tile_totals};
use grid_base::{NoMemory, Size};
use grid_graph::Design;
use std::alloc::Global;

/// A design without its layers, and the loads of its routes.
#[derive(Drop)]
pub struct TileView {
    pub size: Size,
    /// Those of the open edges, by the numbers of the tile edges.
    pub totals: Vec<TileTotal>,
    pub nets: TileNets,
}

impl TileView {
    /// The view of a design, and of loads by edge numbers.
    pub fn of(alloc: Global, design: &Design, loads: &[u64]) -> Result<TileView, NoMemory>
        ensures size { IfOk result (λ view. view.size ≡ grids.size_of design.now.grid) }
        ensures long { IfOk result (λ view. length view.totals.items ≡ 2 * tiles view.size) }
        ensures totals { IfOk result (λ view. view.totals.items ≡ totals_of design.now.grid loads.now) }
    {
        Ok(TileView {
            size: design.grid.size(),
            totals: tile_totals(alloc, &design.grid, loads)?,
            nets: TileNets::of(alloc, design)?,
        })
    }

    /// How many tiles there are.
    pub fn tiles(&self) -> u32
        ensures { result ≡ tiles self.now.size }
    {
        self.size.cols() * self.size.rows()
    }
}
