//! Demands by layer.

ghost use Rattle.grid_graph.specs.Grids.{IsNetWidth};
ghost use Rattle.edge_prices.specs.Demands.{AreDemands};

use crate::limits::LAYERS;
use grid_base::{Axis, Edge, Vertex};
use grid_graph::Grid;

/// What a wire of this width uses of an edge, by layer.
pub fn demands_by_layer(grid: &Grid, width: u32) -> [u32; LAYERS]
    requires { IsNetWidth grid.now width }
    ensures { AreDemands grid.now width result }
{
    let size = grid.size();
    let per_layer = size.cols() * size.rows();
    let mut demands = [0; LAYERS];
    for layer in 0..size.layers() {
        demands[layer as usize] = grid.demand(
            width,
            Edge::along(Vertex(layer * per_layer), Axis::X),
        );
    }
    demands
}
