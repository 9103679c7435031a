//! Paths of cells.

ghost use Rattle.std.specs.Prelude.{◌≡◌, ◌<◌, ◌≤◌, ◌+◌};
ghost use Rattle.gr_desk.specs.Pens.{Puts, pen_told, HasSameDesk};
ghost use Rattle.congestion_cells.specs.Rasters as rasters;
ghost use Rattle.congestion_picture.specs.CellMaps as words;
ghost use Rattle.congestion_picture.specs.CellMaps.{IsCellMap};
ghost use Rattle.congestion_picture.specs.Paths.{cell_text, frame_text, path_text, row_text, rows_text, run_in, run_text, stroke_text};

use crate::cell_map::CellMap;
use crate::paint::Paint;
use gr_desk::{Desk, Pen};

/// Whether a run of painted cells begins at a place.
fn begins(map: &CellMap, paint: Paint, row: u32, column: u32) -> bool
    requires map { IsCellMap map.now }
    requires row { row < rasters.rows map.now.raster }
    requires column { column < rasters.columns map.now.raster }
    ensures { result ≡ words.begins map.now paint row column }
{
    map.is_painted(paint, row, column) && (column == 0 || !map.is_painted(paint, row, column - 1))
}

/// How many cells are painted side by side from a place on.
fn run_from(map: &CellMap, paint: Paint, row: u32, column: u32) -> u32
    requires map { IsCellMap map.now }
    requires row { row < rasters.rows map.now.raster }
    requires column { column ≤ rasters.columns map.now.raster }
    ensures count { result ≡ run_in map.now paint row column }
    ensures within { column + result ≤ rasters.columns map.now.raster }
{
    let columns = map.raster.columns();
    for end in column..columns {
        if !map.is_painted(paint, row, end) {
            return end - column;
        }
    }
    columns - column
}

/// Puts a stroke through the middle of a run.
fn put_stroke<D: Desk>(pen: &mut Pen<'_, D>, column: u32, row: u32, count: u32)
    ensures same_desk { HasSameDesk pen.old pen.new }
    ensures puts { Puts (pen_told D.told pen.old) (pen_told D.told pen.new) (stroke_text column row count) }
{
    pen.put(b"M");
    pen.put_number(column);
    pen.put(b" ");
    pen.put_number(row);
    pen.put(b"h");
    pen.put_number(count);
}

/// Puts a frame around a run. The frame stands one unit outside, so that it is seen around a cell of two units too.
fn put_frame<D: Desk>(pen: &mut Pen<'_, D>, scale: u32, column: u32, row: u32, count: u32)
    ensures same_desk { HasSameDesk pen.old pen.new }
    ensures puts { Puts (pen_told D.told pen.old) (pen_told D.told pen.new) (frame_text scale column row count) }
{
    let scale = u64::from(scale);
    let wide = u64::from(count) * scale + 2;
    let high = scale + 2;
    pen.put(b"M");
    pen.put_number(u64::from(column) * scale);
    pen.put(b" ");
    pen.put_number(u64::from(row) * scale);
    pen.put(b"h");
    pen.put_number(wide);
    pen.put(b"v");
    pen.put_number(high);
    pen.put(b"h-");
    pen.put_number(wide);
    pen.put(b"z");
}

/// Puts what shows a run: overfull cells have a frame, all others a stroke. The lowest row stands at the bottom.
fn put_run<D: Desk>(pen: &mut Pen<'_, D>, map: &CellMap, paint: Paint, row: u32, column: u32)
    requires map { IsCellMap map.now }
    requires row { row < rasters.rows map.now.raster }
    requires column { column < rasters.columns map.now.raster }
    ensures same_desk { HasSameDesk pen.old pen.new }
    ensures puts { Puts (pen_told D.told pen.old) (pen_told D.told pen.new) (run_text map.now paint row column) }
{
    let count = run_from(map, paint, row, column);
    let down = map.raster.rows() - 1 - row;
    if paint.has_frame() {
        put_frame(pen, map.scale(), column, down, count);
    } else {
        put_stroke(pen, column, down, count);
    }
}

/// Puts the run that begins at a place, if one does.
fn put_cell<D: Desk>(pen: &mut Pen<'_, D>, map: &CellMap, paint: Paint, row: u32, column: u32)
    requires map { IsCellMap map.now }
    requires row { row < rasters.rows map.now.raster }
    requires column { column < rasters.columns map.now.raster }
    ensures same_desk { HasSameDesk pen.old pen.new }
    ensures puts { Puts (pen_told D.told pen.old) (pen_told D.told pen.new) (cell_text map.now paint row column) }
{
    if begins(map, paint, row, column) {
        put_run(pen, map, paint, row, column);
    }
}

/// Puts the runs of a row.
fn put_row<D: Desk>(pen: &mut Pen<'_, D>, map: &CellMap, paint: Paint, row: u32)
    requires map { IsCellMap map.now }
    requires row { row < rasters.rows map.now.raster }
    ensures same_desk { HasSameDesk pen.old pen.new }
    ensures puts { Puts (pen_told D.told pen.old) (pen_told D.told pen.new) (row_text map.now paint row) }
{
    for column in 0..map.raster.columns() {
        put_cell(pen, map, paint, row, column);
    }
}

/// Puts the runs of all rows.
fn put_rows<D: Desk>(pen: &mut Pen<'_, D>, map: &CellMap, paint: Paint)
    requires { IsCellMap map.now }
    ensures same_desk { HasSameDesk pen.old pen.new }
    ensures puts { Puts (pen_told D.told pen.old) (pen_told D.told pen.new) (rows_text map.now paint) }
{
    for row in 0..map.raster.rows() {
        put_row(pen, map, paint, row);
    }
}

/// Puts the path of the painted cells.
pub(crate) fn put_path<D: Desk>(pen: &mut Pen<'_, D>, map: &CellMap, paint: Paint, look: &[u8])
    requires { IsCellMap map.now }
    ensures same_desk { HasSameDesk pen.old pen.new }
    ensures puts { Puts (pen_told D.told pen.old) (pen_told D.told pen.new) (path_text map.now paint look.now) }
{
    pen.put(b"<path ");
    pen.put(look);
    pen.put(b" d=\"");
    put_rows(pen, map, paint);
    pen.put(b"\"/>\n");
}
