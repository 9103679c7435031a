//! Along which axes layers have edges.

use grid_base::{Axis, Edge, NoMemory, Vertex};
use grid_graph::Grid;
use std::alloc::Global;

/// Along which axes a layer has edges.
#[derive(Clone, Copy)]
pub struct Direction {
    pub along_x: bool,
    pub along_y: bool,
}

impl Direction {
    ghost use Rattle.std.specs.Prelude.{◌↔◌, ◌⊎◌, IsTrue};

    /// Neither.
    pub(crate) const NONE: Direction = Direction {
        along_x: false,
        along_y: false,
    };

    /// What either has.
    pub(crate) fn or(self, other: Direction) -> Direction
        ensures x { IsTrue result.along_x ↔ (IsTrue self.along_x ⊎ IsTrue other.along_x) }
        ensures y { IsTrue result.along_y ↔ (IsTrue self.along_y ⊎ IsTrue other.along_y) }
    {
        Direction {
            along_x: self.along_x || other.along_x,
            along_y: self.along_y || other.along_y,
        }
    }

    /// Whether it has all that the other one has.
    pub(crate) fn has(self, other: Direction) -> bool
        ensures { IsTrue result ↔ ((IsTrue other.along_x → IsTrue self.along_x) × (IsTrue other.along_y → IsTrue self.along_y)) }
    {
        (self.along_x || !other.along_x) && (self.along_y || !other.along_y)
    }
}

/// Along which axes each layer has edges with capacity. A layer without any along an axis is not searched along it, not even for
/// nets that may use choked edges.
#[derive(Drop)]
pub struct Directions {
    layers: Vec<Direction>,
}

impl Directions {
    ghost use Rattle.std.specs.Prelude.{◌≡◌, IfOk, length, slice_index_or};
    ghost use Rattle.grid_base.specs.Numbers.{layers};
    ghost use Rattle.grid_graph.specs.Grids.{size_of};
    ghost use Rattle.layer_ways.specs.Axes.{neither};

    /// Those of a grid.
    pub(crate) fn of(alloc: Global, grid: &Grid) -> Result<Directions, NoMemory>
        ensures { IfOk result (λ directions. length directions.layers.items ≡ layers (size_of grid.now)) }
    {
        let size = grid.size();
        let mut layers = vec![in alloc; Direction::NONE; size.layers() as usize]?;
        for v in 0..size.vertices() {
            let layer = size.layer_of(Vertex(v)) as usize;
            if layer < layers.len() {
                layers[layer] = layers[layer].or(Direction {
                    along_x: grid.capacity(Edge::along(Vertex(v), Axis::X)) > 0,
                    along_y: grid.capacity(Edge::along(Vertex(v), Axis::Y)) > 0,
                });
            }
        }
        Ok(Directions { layers })
    }

    /// How many layers there are.
    pub(crate) fn len(&self) -> usize
        ensures { result ≡ length self.now.layers.items }
    {
        self.layers.len()
    }

    /// The axes of a layer.
    pub fn at(&self, layer: usize) -> Direction
        ensures { result ≡ slice_index_or self.now.layers.items layer neither }
    {
        if layer < self.layers.len() {
            self.layers[layer]
        } else {
            Direction::NONE
        }
    }
}
