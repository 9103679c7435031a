//! The raster of a map.

ghost use Rattle.std.specs.Prelude.{◌<◌};

use crate::direction::Direction;
use grid_base::Size;

/// A map has at most so many cells a side.
const MOST_CELLS: u32 = 2000;

/// Which tile edges a map shows, and by how many tiles a side each of its cells stands for. The first cell begins at the first
/// column and the lowest row.
#[derive(Clone, Copy, Debug, PartialEq, Eq)]
pub struct Raster {
    pub size: Size,
    pub direction: Direction,
    pub side: u32,
    pub ghost some: { 0 < side },
}

impl Raster {
    ghost use Rattle.std.specs.Prelude.{◌≡◌};
    ghost use Rattle.congestion_cells.specs.Rasters as words;

    /// The raster of a map of a grid, whose cells are as small as they can be.
    pub fn of(size: Size, direction: Direction) -> Raster
        ensures size { result.size ≡ size }
        ensures direction { result.direction ≡ direction }
        ensures side { result.side ≡ words.side_for size }
    {
        let tiles = size.cols().max(size.rows());
        Raster {
            size,
            direction,
            side: tiles.div_ceil(MOST_CELLS),
        }
    }

    /// How many columns of cells it has.
    pub fn columns(&self) -> u32
        ensures { result ≡ words.columns self.now }
    {
        self.size.cols().div_ceil(self.side)
    }

    /// How many rows of cells it has.
    pub fn rows(&self) -> u32
        ensures { result ≡ words.rows self.now }
    {
        self.size.rows().div_ceil(self.side)
    }
}
