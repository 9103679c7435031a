//! The text of guides.

ghost use Rattle.std.specs.Prelude.{◌≡◌, flat_map};
ghost use Rattle.gr_desk.specs.Pens.{Ends, Puts, pen_told, HasSameDesk};
ghost use Rattle.guide_text.specs.GuideText as text;
ghost use Rattle.guide_text.specs.GuideText.{rect_text, guides_text};

use crate::guide::Guide;
use crate::rect::Rect;
use gr_desk::{Desk, Failed, Pen, Port};

/// Puts a rectangle on a line of its own.
fn put_rect<D: Desk>(pen: &mut Pen<'_, D>, rect: Rect)
    ensures same_desk { HasSameDesk pen.old pen.new }
    ensures puts { Puts (pen_told D.told pen.old) (pen_told D.told pen.new) (rect_text rect) }
{
    pen.put_number(rect.x1);
    pen.put(b" ");
    pen.put_number(rect.y1);
    pen.put(b" ");
    pen.put_number(rect.x2);
    pen.put(b" ");
    pen.put_number(rect.y2);
    pen.put(b" ");
    pen.put_number(rect.layer);
    pen.put(b"\n");
}

/// Puts the rectangles.
fn put_rects<D: Desk>(pen: &mut Pen<'_, D>, rects: &[Rect])
    ensures same_desk { HasSameDesk pen.old pen.new }
    ensures puts { Puts (pen_told D.told pen.old) (pen_told D.told pen.new) (flat_map rect_text rects.now) }
{
    for rect in rects {
        put_rect(pen, *rect);
    }
}

/// Puts the guide of one net.
fn put_guide<D: Desk>(pen: &mut Pen<'_, D>, guide: &Guide)
    ensures same_desk { HasSameDesk pen.old pen.new }
    ensures puts { Puts (pen_told D.told pen.old) (pen_told D.told pen.new) (text.guide_text guide.now) }
{
    pen.put(guide.name.list());
    pen.put(b" ");
    pen.put_number(guide.id);
    pen.put(b"\n(\n");
    put_rects(pen, guide.rects.list());
    pen.put(b")\n");
}

/// Puts all guides.
fn put_guides<D: Desk>(pen: &mut Pen<'_, D>, guides: &[Guide])
    ensures same_desk { HasSameDesk pen.old pen.new }
    ensures puts { Puts (pen_told D.told pen.old) (pen_told D.told pen.new) (guides_text guides.now) }
{
    for k in 0..guides.len() {
        put_guide(pen, &guides[k]);
    }
}

/// Writes the text of guides to the port, and takes no memory.
///
/// After `Failed` some part from the front of the text was written.
pub fn write_guides<D: Desk>(desk: &mut D, port: Port, guides: &[Guide]) -> Result<(), Failed>
    ensures ends { Ends (D.told desk.old) (D.told desk.new) port (guides_text guides.now) result }
{
    let mut pen = Pen::new(desk, port);
    put_guides(&mut pen, guides);
    pen.finish()
}
