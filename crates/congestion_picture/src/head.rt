//! What stands above the maps: the name, and what is measured of the routes.

ghost use Rattle.std.specs.Prelude.{◌≡◌, ◌<◌, ◌≤◌, ◌+◌, ◌^◌};
ghost use Rattle.gr_desk.specs.Pens.{Puts, pen_told, HasSameDesk};
ghost use Rattle.congestion_picture.specs.Heads.{allowed_byte, escaped, escaped_byte, facts_text, head_text, side_text, sized};

use cert_text::put_fraction;
use congestion_cells::ShownLayers;
use gr_desk::{Desk, Pen};
use tree_set::Measure;

/// Puts a byte of a name so that it is no part of the mark-up.
fn put_escaped_byte<D: Desk>(pen: &mut Pen<'_, D>, byte: u8)
    ensures same_desk { HasSameDesk pen.old pen.new }
    ensures puts { Puts (pen_told D.told pen.old) (pen_told D.told pen.new) (escaped_byte byte) }
{
    if byte == b'&' {
        pen.put(b"&amp;");
    } else if byte == b'<' {
        pen.put(b"&lt;");
    } else if byte == b'>' {
        pen.put(b"&gt;");
    } else if byte < b' ' {
        pen.put(b" ");
    } else {
        pen.put(&[byte]);
    }
}

/// A byte of a name behind the two before it, such as XML allows.
fn byte_behind(before: u8, last: u8, byte: u8) -> u8
    ensures value { result ≡ allowed_byte before last byte }
{
    if before == 0xef && last == 0xbf && (byte == 0xbe || byte == 0xbf) {
        0xbd
    } else {
        byte
    }
}

/// Puts a name.
fn put_escaped<D: Desk>(pen: &mut Pen<'_, D>, name: &[u8])
    ensures same_desk { HasSameDesk pen.old pen.new }
    ensures puts { Puts (pen_told D.told pen.old) (pen_told D.told pen.new) (escaped name.now) }
{
    let mut before = 0;
    let mut last = 0;
    for byte in name {
        put_escaped_byte(pen, byte_behind(before, last, *byte));
        before = last;
        last = *byte;
    }
}

/// Puts a text, a width, a text, a height, and a text.
fn put_sized<D: Desk>(
    pen: &mut Pen<'_, D>,
    before: &[u8],
    width: u128,
    between: &[u8],
    height: u128,
)
    ensures same_desk { HasSameDesk pen.old pen.new }
    ensures puts { Puts (pen_told D.told pen.old) (pen_told D.told pen.new) (sized before.now width between.now height) }
{
    pen.put(before);
    pen.put_number(width);
    pen.put(between);
    pen.put_number(height);
}

/// Puts the begin of a picture of so many units, up to the name.
pub(crate) fn put_head<D: Desk>(pen: &mut Pen<'_, D>, name: &str, width: u128, height: u128)
    ensures same_desk { HasSameDesk pen.old pen.new }
    ensures puts { Puts (pen_told D.told pen.old) (pen_told D.told pen.new) (head_text name.now width height) }
{
    pen.put(
        b"<?xml version=\"1.0\" encoding=\"UTF-8\"?>\n<svg xmlns=\"http://www.w3.org/2000/svg\" version=\"1.1\"",
    );
    put_sized(pen, b" width=\"", width, b"\" height=\"", height);
    put_sized(pen, b"\" viewBox=\"0 0 ", width, b" ", height);
    pen.put(b"\" font-family=\"sans-serif\" font-size=\"14\" fill=\"#222\">\n<title>");
    put_escaped(pen, name.as_bytes());
    put_sized(
        pen,
        b"</title>\n<rect width=\"",
        width,
        b"\" height=\"",
        height,
    );
    pen.put(b"\" fill=\"#fff\"/>\n<text x=\"20\" y=\"34\" font-size=\"20\">");
    put_escaped(pen, name.as_bytes());
    pen.put(b"</text>\n");
}

/// Puts how many tiles a cell stands for, where these are several.
fn put_side<D: Desk>(pen: &mut Pen<'_, D>, side: u32)
    ensures same_desk { HasSameDesk pen.old pen.new }
    ensures puts { Puts (pen_told D.told pen.old) (pen_told D.told pen.new) (side_text side) }
{
    if side > 1 {
        pen.put(b"; the fullest of ");
        pen.put_number(side);
        pen.put(b" by ");
        pen.put_number(side);
        pen.put(b" tiles in each cell");
    }
}

/// Puts what is measured, and what is shown of it.
pub(crate) fn put_facts<D: Desk>(
    pen: &mut Pen<'_, D>,
    measure: &Measure,
    shown: ShownLayers,
    side: u32,
)
    requires { shown.first + shown.count < 2 ^ 31 }
    ensures same_desk { HasSameDesk pen.old pen.new }
    ensures puts { Puts (pen_told D.told pen.old) (pen_told D.told pen.new) (facts_text measure.now shown side) }
{
    pen.put(b"<text x=\"20\" y=\"58\">overflow ");
    pen.put_number(measure.overflow);
    pen.put(b", wirelength ");
    pen.put_number(measure.wirelength);
    pen.put(b", peak ");
    put_fraction(pen, measure.peak);
    pen.put(b"</text>\n<text x=\"20\" y=\"78\">load by capacity on layers ");
    pen.put_number(shown.first + 1);
    pen.put(b" to ");
    pen.put_number(shown.first + shown.count);
    put_side(pen, side);
    pen.put(b"</text>\n");
}
