//! Points and segments as text.

ghost use Rattle.std.specs.Prelude.{◌≡◌};
ghost use Rattle.std.specs.Fmt.{signed_decimal};
ghost use Rattle.grid_base.specs.Numbers.{IsVertex};
ghost use Rattle.grid_graph.specs.Grids.{size_of};
ghost use Rattle.gr_desk.specs.Pens.{Puts, pen_told, HasSameDesk};
ghost use Rattle.route_text.specs.RouteText.{point_text, segment_text};

use crate::position::{x_of, y_of};
use gr_desk::{Desk, Pen};
use grid_base::Vertex;
use grid_graph::Grid;

/// Puts a vertex as a point.
pub fn put_point<D: Desk>(pen: &mut Pen<'_, D>, grid: &Grid, v: Vertex)
    requires { IsVertex (size_of grid.now) v.0 }
    ensures same_desk { HasSameDesk pen.old pen.new }
    ensures puts { Puts (pen_told D.told pen.old) (pen_told D.told pen.new) (point_text grid.now v.0) }
{
    let place = grid.size().place_of(v);
    pen.put(b"(");
    put_position(pen, x_of(grid, place.col));
    pen.put(b",");
    put_position(pen, y_of(grid, place.row));
    pen.put(b",");
    pen.put_number(place.layer + 1);
    pen.put(b")");
}

/// Puts a position. Most are short numbers, which are put faster.
fn put_position<D: Desk>(pen: &mut Pen<'_, D>, position: i128)
    ensures same_desk { HasSameDesk pen.old pen.new }
    ensures puts { Puts (pen_told D.told pen.old) (pen_told D.told pen.new) (signed_decimal position) }
{
    match i64::try_from(position) {
        Ok(short) => pen.put_number(short),
        Err(_) => pen.put_number(position),
    }
}

/// Puts a segment from one vertex to another, on a line of its own.
pub(crate) fn put_segment<D: Desk>(pen: &mut Pen<'_, D>, grid: &Grid, from: Vertex, to: Vertex)
    requires from { IsVertex (size_of grid.now) from.0 }
    requires to { IsVertex (size_of grid.now) to.0 }
    ensures same_desk { HasSameDesk pen.old pen.new }
    ensures puts { Puts (pen_told D.told pen.old) (pen_told D.told pen.new) (segment_text grid.now (from.0, to.0)) }
{
    put_point(pen, grid, from);
    pen.put(b"-");
    put_point(pen, grid, to);
    pen.put(b"\n");
}
