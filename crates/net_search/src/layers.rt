//! What a net may use of the layers.

ghost use Rattle.std.specs.Prelude.{◌≡◌, ◌≤◌, All};
ghost use Rattle.grid_graph.specs.Grids.{IsNetWidth};
ghost use Rattle.net_search.specs.Using.{HasEdges};

use grid_base::{Axis, Edge, Place};
use grid_graph::Grid;
use layer_ways::Directions;

/// The most layers of a grid.
pub(crate) const LAYERS: usize = 16;

/// What a net uses of an edge of a layer, and along which axes the layer has edges.
#[derive(Clone, Copy)]
pub(crate) struct LayerUse {
    pub(crate) demand: u32,
    pub(crate) along_x: bool,
    pub(crate) along_y: bool,
}

/// What a net of this width uses, by layer.
pub(crate) fn layers_for(grid: &Grid, directions: &Directions, width: u32) -> [LayerUse; LAYERS]
    requires { IsNetWidth grid.now width }
{
    let none = LayerUse {
        demand: 0,
        along_x: false,
        along_y: false,
    };
    let mut layers = [none; LAYERS];
    for layer in 0..LAYERS {
        let place = Place {
            col: 0,
            row: 0,
            layer: layer as u32,
        };
        if let Some(v) = grid.size().vertex_of(place) {
            let way = directions.at(layer);
            layers[layer] = LayerUse {
                demand: grid.demand(width, Edge::along(v, Axis::X)),
                along_x: way.along_x,
                along_y: way.along_y,
            };
        }
    }
    layers
}

/// The least demand on a layer that has edges.
pub(crate) fn least_demand(layers: &[LayerUse; LAYERS]) -> u32
    ensures { All (λ layer. HasEdges layer → result ≤ layer.demand) layers.now }
{
    let mut least = u32::MAX;
    for layer in layers {
        least = least.min(demand_where_used(layer));
    }
    least
}

/// The demand on a layer; the greatest number where it has no edges.
fn demand_where_used(layer: &LayerUse) -> u32
    ensures { HasEdges layer.now → result ≡ layer.now.demand }
{
    if layer.along_x || layer.along_y {
        layer.demand
    } else {
        u32::MAX
    }
}
