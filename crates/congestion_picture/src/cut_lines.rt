//! The lines of a cut.

ghost use Rattle.std.specs.Prelude.{◌≡◌, ◌<◌, ◌*◌, ◌+◌, All, flat_map};
ghost use Rattle.gr_desk.specs.Pens.{Puts, pen_told, HasSameDesk};
ghost use Rattle.congestion_picture.specs.CutLines.{IsTileEdge, cut_line, cut_text, line_from};

use crate::cell_map::CellMap;
use gr_desk::{Desk, Pen};
use grid_base::{Axis, Edge};

/// Puts the line of a tile edge: between the cells of its two tiles, across the edge.
fn put_cut_line<D: Desk>(pen: &mut Pen<'_, D>, map: &CellMap, tile_edge: u32)
    requires { IsTileEdge map.now.raster tile_edge }
    ensures same_desk { HasSameDesk pen.old pen.new }
    ensures puts { Puts (pen_told D.told pen.old) (pen_told D.told pen.new) (cut_line map.now.raster tile_edge) }
{
    let edge = Edge(tile_edge);
    let place = map.raster.size.place_of(edge.start());
    let scale = u64::from(map.scale());
    let column = u64::from(place.col / map.raster.side);
    let down = u64::from(map.raster.rows() - 1 - place.row / map.raster.side);
    match edge.axis() {
        Axis::X => put_line(pen, (column + 1) * scale, down * scale, b"v", scale),
        Axis::Y => put_line(pen, column * scale, down * scale, b"h", scale),
    }
}

/// Puts a line from a point on.
fn put_line<D: Desk>(pen: &mut Pen<'_, D>, x: u64, y: u64, towards: &[u8], length: u64)
    ensures same_desk { HasSameDesk pen.old pen.new }
    ensures puts { Puts (pen_told D.told pen.old) (pen_told D.told pen.new) (line_from x y towards.now length) }
{
    pen.put(b"M");
    pen.put_number(x);
    pen.put(b" ");
    pen.put_number(y);
    pen.put(towards);
    pen.put_number(length);
}

/// Puts the lines of tile edges, over a map.
pub(crate) fn put_cut<D: Desk>(pen: &mut Pen<'_, D>, map: &CellMap, cut: &[u32])
    requires { All (IsTileEdge map.now.raster) cut.now }
    ensures same_desk { HasSameDesk pen.old pen.new }
    ensures puts { Puts (pen_told D.told pen.old) (pen_told D.told pen.new) (cut_text map.now.raster cut.now) }
{
    pen.put(b"<path class=\"cut\" fill=\"none\" stroke=\"#009e73\" stroke-width=\"4\" d=\"");
    put_cut_lines(pen, map, cut);
    pen.put(b"\"/>\n");
}

/// Puts these lines.
fn put_cut_lines<D: Desk>(pen: &mut Pen<'_, D>, map: &CellMap, cut: &[u32])
    requires { All (IsTileEdge map.now.raster) cut.now }
    ensures same_desk { HasSameDesk pen.old pen.new }
    ensures puts { Puts (pen_told D.told pen.old) (pen_told D.told pen.new) (flat_map (cut_line map.now.raster) cut.now) }
{
    for tile_edge in cut {
        put_cut_line(pen, map, *tile_edge);
    }
}
