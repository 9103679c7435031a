//! The layers that are shown.

use grid_base::Size;

/// So many layers, from the first one on. Layers count from 0.
#[derive(Clone, Copy, Debug, Drop, PartialEq, Eq)]
pub struct ShownLayers {
    pub first: u32,
    pub count: u32,
}

impl ShownLayers {
    ghost use Rattle.std.specs.Prelude.{◌≡◌, ◌<◌};
    ghost use Rattle.grid_base.specs.Numbers.{layers};
    ghost use Rattle.congestion_cells.specs.TileUses.{AreLayersOf, all_layers, one_layer};

    /// All layers.
    pub fn all(size: Size) -> ShownLayers
        ensures all { result ≡ all_layers size }
        ensures within { AreLayersOf size result }
    {
        ShownLayers {
            first: 0,
            count: size.layers(),
        }
    }

    /// One layer.
    pub fn one(size: Size, layer: u32) -> ShownLayers
        requires { layer < layers size }
        ensures one { result ≡ one_layer layer }
        ensures within { AreLayersOf size result }
    {
        ShownLayers {
            first: layer,
            count: 1,
        }
    }
}
