//! What the layers of a grid are to ways.

use crate::directions::Directions;
use crate::fewest_vias::FewestVias;
use grid_base::NoMemory;
use grid_graph::Grid;
use std::alloc::Global;

/// Along which axes the layers of a grid have edges, and how many vias ways between them have at least.
#[derive(Drop)]
pub struct LayerTables {
    pub directions: Directions,
    pub vias: FewestVias,
}

impl LayerTables {
    ghost use Rattle.std.specs.Prelude.{◌≡◌, IfOk, length};
    ghost use Rattle.grid_base.specs.Numbers.{layers};
    ghost use Rattle.grid_graph.specs.Grids.{size_of};

    /// Those of a grid.
    pub fn of(alloc: Global, grid: &Grid) -> Result<LayerTables, NoMemory>
        ensures { IfOk result (λ tables. length tables.directions.layers.items ≡ layers (size_of grid.now)) }
    {
        let directions = Directions::of(alloc, grid)?;
        Ok(LayerTables {
            vias: FewestVias::of(alloc, &directions)?,
            directions,
        })
    }
}
