//! What stands before the nets.

ghost use Rattle.std.specs.Prelude.{◌≡◌, flat_map};
ghost use Rattle.gr_desk.specs.Pens.{Puts, pen_told, HasSameDesk};
ghost use Rattle.gr_make.specs.MadeText.{line_text, heading_lines};
ghost use Rattle.gr_make.specs.Shapes.{IsShape};

use crate::lines::{put_line, put_numbers};
use crate::nets::TILE_SIDE;
use crate::shape::Shape;
use gr_desk::{Desk, Pen};

/// The capacity along y of each layer.
const VERTICAL_LEVELS: [u32; 8] = [0, 8, 0, 8, 0, 8, 0, 8];

/// The capacity along x of each layer.
const HORIZONTAL_LEVELS: [u32; 8] = [8, 0, 8, 0, 8, 0, 8, 0];

/// The minimum width of each layer, its minimum spacing, and the spacing of vias.
const ONES: [u32; 8] = [1; 8];

/// Puts the lines before the nets.
pub(crate) fn put_heading<D: Desk>(pen: &mut Pen<'_, D>, shape: Shape)
    requires shape { IsShape shape }
    ensures same_desk { HasSameDesk pen.old pen.new }
    ensures puts { Puts (pen_told D.told pen.old) (pen_told D.told pen.new) (flat_map line_text (heading_lines shape)) }
{
    let layers = shape.layers as usize;
    put_line(pen, b"grid", &[shape.cols, shape.rows, shape.layers]);
    put_line(pen, b"vertical capacity", &VERTICAL_LEVELS[..layers]);
    put_line(pen, b"horizontal capacity", &HORIZONTAL_LEVELS[..layers]);
    put_line(pen, b"minimum width", &ONES[..layers]);
    put_line(pen, b"minimum spacing", &ONES[..layers]);
    put_line(pen, b"via spacing", &ONES[..layers]);
    put_numbers(pen, 0, &[0, TILE_SIDE, TILE_SIDE]);
    put_line(pen, b"num net", &[shape.nets]);
}
