//! The lowest layers on which wires can run.

use grid_base::{Axis, Edge};
use grid_graph::Grid;

/// The lowest layer that has an open edge along x, and the lowest along y; the number of layers where none has.
#[derive(Debug, Clone, Copy, Drop)]
pub(crate) struct LowestLayers {
    pub along_x: u32,
    pub along_y: u32,
}

impl LowestLayers {
    ghost use Rattle.std.specs.Prelude.{◌≡◌, min};
    ghost use Rattle.grid_base.specs.declared.axis.Axis.TheVariants.{X, Y};
    ghost use Rattle.net_extents.specs.LowestLayers.{IsLowestLayer};

    /// Those of a grid.
    pub fn of(grid: &Grid) -> LowestLayers
        ensures along_x { IsLowestLayer grid.now X result.along_x }
        ensures along_y { IsLowestLayer grid.now Y result.along_y }
    {
        let size = grid.size();
        let mut lowest = LowestLayers {
            along_x: size.layers(),
            along_y: size.layers(),
        };
        for number in 0..2 * size.vertices() {
            let e = Edge(number);
            if grid.capacity(e) > 0 {
                lowest = lowest.with(e.axis(), size.layer_of(e.start()));
            }
        }
        lowest
    }

    /// With an open edge along the axis on this layer.
    fn with(self, axis: Axis, layer: u32) -> LowestLayers
        ensures along_x { axis ≡ X → result ≡ record self { along_x = min self.along_x layer } }
        ensures along_y { axis ≡ Y → result ≡ record self { along_y = min self.along_y layer } }
    {
        let LowestLayers { along_x, along_y } = self;
        match axis {
            Axis::X => LowestLayers {
                along_x: along_x.min(layer),
                along_y,
            },
            Axis::Y => LowestLayers {
                along_x,
                along_y: along_y.min(layer),
            },
        }
    }
}
