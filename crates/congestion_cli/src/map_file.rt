//! The file of a map.

ghost use Rattle.gr_desk.specs.declared.port.Port.TheVariants.{MapOut};
ghost use Rattle.gr_desk.specs.Pens.{Ends};
ghost use Rattle.command_runs.specs.Outputs.{Makes};
ghost use Rattle.congestion_cli.specs.Drawings.{IsDrawable, drawing_text};

use crate::drawing::{Drawing, put_drawing};
use gr_desk::{Desk, Failed, Pen, Port};

/// Writes a drawing of a design of this name.
fn write_map<D: Desk>(desk: &mut D, name: &str, drawing: &Drawing) -> Result<(), Failed>
    requires { IsDrawable drawing.now }
    ensures { Ends (D.told desk.old) (D.told desk.new) MapOut (drawing_text name.now drawing.now) result }
{
    let mut pen = Pen::new(desk, Port::MapOut);
    put_drawing(&mut pen, name, drawing);
    pen.finish()
}

/// Creates a file under a name, and writes to it the drawing of a design of this name.
pub(crate) fn make_map<D: Desk>(
    desk: &mut D,
    map: &str,
    name: &str,
    drawing: &Drawing,
) -> Result<(), Failed>
    requires { IsDrawable drawing.now }
    ensures { Makes (D.told desk.old) (D.told desk.new) MapOut map.now (drawing_text name.now drawing.now) result }
{
    desk.create(Port::MapOut, map)?;
    write_map(desk, name, drawing)
}
