//! A map, as it is drawn.

ghost use Rattle.std.specs.Prelude.{◌≡◌, ◌<◌, ◌*◌, ◌≤◌};
ghost use Rattle.congestion_cells.specs.Rasters as rasters;
ghost use Rattle.congestion_picture.specs.CellMaps as words;
ghost use Rattle.congestion_picture.specs.CellMaps.{IsCellMap};

use crate::paint::Paint;
use congestion_cells::{Cell, Raster};

/// The longer side of a picture's map has at least so many units.
const LEAST_SIDE: u32 = 600;

/// The cells of a map, row by row from the lowest row on, and their raster.
#[derive(Drop)]
pub struct CellMap {
    pub raster: Raster,
    pub cells: Vec<Cell>,
}

impl CellMap {
    /// How many units a cell is wide and high: an even number, so that a row has its middle at a whole one.
    pub(crate) fn scale(&self) -> u32
        ensures { result ≡ words.scale self.now.raster }
    {
        let most = self.raster.columns().max(self.raster.rows());
        2 * (LEAST_SIDE / 2).div_ceil(most)
    }

    /// How many units the map is wide.
    pub(crate) fn width(&self) -> u64
        ensures { result ≡ words.width self.now.raster }
    {
        u64::from(self.raster.columns()) * u64::from(self.scale())
    }

    /// How many units it is high.
    pub(crate) fn height(&self) -> u64
        ensures { result ≡ words.height self.now.raster }
    {
        u64::from(self.raster.rows()) * u64::from(self.scale())
    }

    /// Whether the cell in a row and a column is painted.
    pub(crate) fn is_painted(&self, paint: Paint, row: u32, column: u32) -> bool
        requires map { IsCellMap self.now }
        requires row { row < rasters.rows self.now.raster }
        requires column { column < rasters.columns self.now.raster }
        ensures { result ≡ words.is_painted self.now paint row column }
    {
        let cells = self.cells.as_slice();
        paint.covers(cells[row as usize * self.raster.columns() as usize + column as usize])
    }
}
