//! Makes a design.

ghost use Rattle.std.specs.Prelude.{◌≡◌};
ghost use Rattle.gr_desk.specs.Pens.{Ends, Puts, pen_told, HasSameDesk};
ghost use Rattle.gr_make.specs.MadeText.{made_text};
ghost use Rattle.gr_make.specs.Shapes.{IsShape};

use crate::adjustments::put_adjustments;
use crate::heading::put_heading;
use crate::nets::put_nets;
use crate::random_words::RandomWords;
use crate::shape::Shape;
use gr_desk::{Desk, Failed, Pen, Port};

/// Writes the design that is made from a seed to the port, as a text in the format of the ISPD 2008 global routing
/// contest.
///
/// After `Failed` some part from the front of the text was written.
pub fn make<D: Desk>(desk: &mut D, port: Port, seed: u64, shape: Shape) -> Result<(), Failed>
    requires shape { IsShape shape }
    ensures ends { Ends (D.told desk.old) (D.told desk.new) port (made_text seed shape) result }
{
    let mut pen = Pen::new(desk, port);
    put_design(&mut pen, seed, shape);
    pen.finish()
}

/// Puts all lines.
fn put_design<D: Desk>(pen: &mut Pen<'_, D>, seed: u64, shape: Shape)
    requires shape { IsShape shape }
    ensures same_desk { HasSameDesk pen.old pen.new }
    ensures puts { Puts (pen_told D.told pen.old) (pen_told D.told pen.new) (made_text seed shape) }
{
    let mut words = RandomWords::of(seed);
    put_heading(pen, shape);
    put_nets(pen, &mut words, shape);
    put_adjustments(pen, &mut words, shape);
}
