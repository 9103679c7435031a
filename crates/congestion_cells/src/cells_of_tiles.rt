//! The cells of a map.

ghost use Rattle.std.specs.Prelude.{◌≡◌, ◌<◌, ◌+◌, ◌*◌, ℕ, IfOk, length, map};
ghost use Rattle.std.specs.List.{range_with_len};
ghost use Rattle.grid_graph.specs.Flat.{tiles};
ghost use Rattle.congestion_cells.specs.declared.cell.Cell.{Cell as AnyCell};
ghost use Rattle.congestion_cells.specs.Cells.{joined, with_cell};
ghost use Rattle.congestion_cells.specs.Rasters as words;
ghost use Rattle.congestion_cells.specs.Rasters.{columns, edges_at, rows};

use crate::cell::Cell;
use crate::direction::Direction;
use crate::raster::Raster;
use grid_base::NoMemory;
use std::alloc::Global;

/// A cell with the tile edges that a map shows at one more tile.
fn with_tile(found: Cell, edge_cells: &[Cell], direction: Direction, tile: u32) -> Cell
    requires { 2 * tile + 1 < length edge_cells.now }
    ensures { (cell : ℕ → AnyCell) → edge_cells.now ≡ map cell (range_with_len 0 (length edge_cells.now))
        → result ≡ with_cell found (joined (map cell (edges_at direction tile))) }
{
    let along_x = edge_cells[2 * tile as usize];
    let along_y = edge_cells[2 * tile as usize + 1];
    match direction {
        Direction::X => found.with(along_x),
        Direction::Y => found.with(along_y),
        Direction::Greater => found.with(along_x.with(along_y)),
    }
}

/// The cell in a column and a row.
fn map_cell(raster: Raster, edge_cells: &[Cell], column: u32, row: u32) -> Cell
    requires cells { length edge_cells.now ≡ 2 * tiles raster.size }
    requires column { column < columns raster }
    requires row { row < rows raster }
    ensures { (cell : ℕ → AnyCell) → edge_cells.now ≡ map cell (range_with_len 0 (length edge_cells.now))
        → result ≡ words.map_cell raster cell column row }
{
    let left = column * raster.side;
    let low = row * raster.side;
    let wide = raster.side.min(raster.size.cols() - left);
    let high = raster.side.min(raster.size.rows() - low);
    let mut found = Cell::empty();
    for j in 0..wide * high {
        let tile = (low + j / wide) * raster.size.cols() + (left + j % wide);
        found = with_tile(found, edge_cells, raster.direction, tile);
    }
    found
}

/// The cells of a map, row by row from the lowest row on, where these are the cells of all tile edges.
pub fn map_cells(alloc: Global, raster: Raster, edge_cells: &[Cell]) -> Result<Vec<Cell>, NoMemory>
    requires { length edge_cells.now ≡ 2 * tiles raster.size }
    ensures { (cell : ℕ → AnyCell) → edge_cells.now ≡ map cell (range_with_len 0 (2 * tiles raster.size))
        → IfOk result (λ cells. cells.items ≡ words.map_cells raster cell) }
{
    let columns = raster.columns();
    let mut cells = Vec::new(alloc);
    for i in 0..columns * raster.rows() {
        cells.push(map_cell(raster, edge_cells, i % columns, i / columns))?;
    }
    Ok(cells)
}
