//! The steps from a vertex to its neighbours.

ghost use Rattle.std.specs.Prelude.{◌≡◌, ◌<◌, None, get_or, slice_get};
ghost use Rattle.grid_base.specs.Numbers.{IsVertex, place_at, vertex_number};
ghost use Rattle.grid_base.specs.Neighbours as six;
ghost use Rattle.grid_base.specs.Standing.{StandsAt};

use crate::axis::Axis;
use crate::edge::Edge;
use crate::piece::Piece;
use crate::place::Place;
use crate::size::Size;
use crate::vertex::Vertex;
use crate::via::Via;

/// The steps west, east, south, north, down and up, those that stay inside the grid.
pub fn steps(size: Size, v: Vertex) -> [Option<(Vertex, Piece)>; 6]
    requires { IsVertex size v.0 }
    ensures { result ≡ six.steps size v.0 }
{
    let place = size.place_of(v);
    [
        west(size, place, v),
        east(size, place, v),
        south(size, place, v),
        north(size, place, v),
        down(size, place, v),
        up(size, place, v),
    ]
}

pub(crate) fn west(size: Size, place: Place, v: Vertex) -> Option<(Vertex, Piece)>
    requires { StandsAt size place v.0 }
    ensures { result ≡ six.west size v.0 }
{
    if place.col == 0 {
        return None;
    }
    let to = Vertex(v.0 - 1);
    Some((to, Piece::Edge(Edge::along(to, Axis::X))))
}

pub(crate) fn east(size: Size, place: Place, v: Vertex) -> Option<(Vertex, Piece)>
    requires { StandsAt size place v.0 }
    ensures { result ≡ six.east size v.0 }
{
    if place.col + 1 >= size.cols() {
        return None;
    }
    Some((Vertex(v.0 + 1), Piece::Edge(Edge::along(v, Axis::X))))
}

pub(crate) fn south(size: Size, place: Place, v: Vertex) -> Option<(Vertex, Piece)>
    requires { StandsAt size place v.0 }
    ensures { result ≡ six.south size v.0 }
{
    if place.row == 0 {
        return None;
    }
    let to = Vertex(v.0 - size.cols());
    Some((to, Piece::Edge(Edge::along(to, Axis::Y))))
}

pub(crate) fn north(size: Size, place: Place, v: Vertex) -> Option<(Vertex, Piece)>
    requires { StandsAt size place v.0 }
    ensures { result ≡ six.north size v.0 }
{
    if place.row + 1 >= size.rows() {
        return None;
    }
    Some((
        Vertex(v.0 + size.cols()),
        Piece::Edge(Edge::along(v, Axis::Y)),
    ))
}

pub(crate) fn down(size: Size, place: Place, v: Vertex) -> Option<(Vertex, Piece)>
    requires { StandsAt size place v.0 }
    ensures { result ≡ six.down size v.0 }
{
    if place.layer == 0 {
        return None;
    }
    let to = v.0 - size.cols() * size.rows();
    Some((Vertex(to), Piece::Via(Via(to))))
}

pub(crate) fn up(size: Size, place: Place, v: Vertex) -> Option<(Vertex, Piece)>
    requires { StandsAt size place v.0 }
    ensures { result ≡ six.up size v.0 }
{
    if place.layer + 1 >= size.layers() {
        return None;
    }
    Some((
        Vertex(v.0 + size.cols() * size.rows()),
        Piece::Via(Via(v.0)),
    ))
}

/// The i-th of the steps that stay inside the grid, in the order of `steps`. None past it is worked out.
pub fn nth_step(size: Size, v: Vertex, i: u32) -> Option<(Vertex, Piece)>
    requires { IsVertex size v.0 }
    ensures { result ≡ slice_get (six.neighbours size v.0) i }
{
    let place = size.place_of(v);
    let mut left = i;
    for side in 0..6 {
        if let Some(found) = step_to(size, place, v, side) {
            if left == 0 {
                return Some(found);
            }
            left -= 1;
        }
    }
    None
}

/// The step at this place of the list of all six.
fn step_to(size: Size, place: Place, v: Vertex, side: u32) -> Option<(Vertex, Piece)>
    requires side { side < 6 }
    requires place { StandsAt size place v.0 }
    ensures { result ≡ get_or (six.steps size v.0) side None }
{
    match side {
        0 => west(size, place, v),
        1 => east(size, place, v),
        2 => south(size, place, v),
        3 => north(size, place, v),
        4 => down(size, place, v),
        _ => up(size, place, v),
    }
}
