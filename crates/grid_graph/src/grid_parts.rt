//! What a grid is made of.

use grid_base::Size;

/// What a grid is made of. The four lists have one entry per layer, from the lowest layer on.
#[derive(Drop)]
pub struct GridParts {
    /// Columns, rows and layers.
    pub size: Size,
    /// The capacities of the edges along y.
    pub vertical: Vec<u32>,
    /// The capacities of the edges along x.
    pub horizontal: Vec<u32>,
    /// The minimum widths of a wire.
    pub widths: Vec<u32>,
    /// The minimum spacings between wires.
    pub spacings: Vec<u32>,
    /// The lower-left corner: x, then y.
    pub origin: (i64, i64),
    /// The width and the height of a tile.
    pub tile: (i64, i64),
}
