//! What is written to the file of a map.

ghost use Rattle.std.specs.Prelude.{◌≡◌};
ghost use Rattle.gr_desk.specs.Pens.{Puts, pen_told, HasSameDesk};
ghost use Rattle.congestion_cli.specs.Drawings.{IsDrawable, drawing_text};

use congestion_cells::ShownLayers;
use congestion_picture::{Picture, put_picture, put_table};
use gr_desk::{Desk, Pen};
use grid_graph::Design;

/// A picture, or what a table is made of.
#[derive(Drop)]
pub(crate) enum Drawing {
    Picture(Picture),
    Table {
        design: Design,
        loads: Vec<u64>,
        shown: ShownLayers,
        each: ShownLayers,
    },
}

/// Puts a drawing of a design of this name.
pub(crate) fn put_drawing<D: Desk>(pen: &mut Pen<'_, D>, name: &str, drawing: &Drawing)
    requires { IsDrawable drawing.now }
    ensures same_desk { HasSameDesk pen.old pen.new }
    ensures puts { Puts (pen_told D.told pen.old) (pen_told D.told pen.new) (drawing_text name.now drawing.now) }
{
    match drawing {
        Drawing::Picture(picture) => put_picture(pen, name, picture),
        Drawing::Table {
            design,
            loads,
            shown,
            each,
        } => put_table(pen, &design.grid, loads.as_slice(), *shown, *each),
    }
}
