//! The scale of a picture: what its colours and lines mean.

ghost use Rattle.std.specs.Prelude.{◌≡◌, ◌++◌};
ghost use Rattle.gr_desk.specs.Pens.{Puts, pen_told, HasSameDesk};
ghost use Rattle.congestion_picture.specs.ScaleBars.{class_samples, cut_sample, line_samples};

use gr_desk::{Desk, Pen};

/// Puts a sample of each class, from no load on.
///
/// The colours are eleven of `inferno` by Stéfan van der Walt and Nathaniel Smith (2015), from light to dark: their lightness falls
/// evenly, so they are told apart by the colour-blind and in black and white.
pub(crate) fn put_class_samples<D: Desk>(pen: &mut Pen<'_, D>)
    ensures same_desk { HasSameDesk pen.old pen.new }
    ensures puts { Puts (pen_told D.told pen.old) (pen_told D.told pen.new) class_samples }
{
    pen.put(
        b"<text y=\"-10\">load by capacity</text>\n<rect width=\"24\" height=\"16\" fill=\"#fff\" stroke=\"#999\"/><text x=\"34\" y=\"13\">no load</text>\n",
    );
    pen.put(
        b"<rect y=\"20\" width=\"24\" height=\"16\" fill=\"#fcffa4\"/><text x=\"34\" y=\"33\">up to 25 %</text>\n",
    );
    pen.put(
        b"<rect y=\"40\" width=\"24\" height=\"16\" fill=\"#f6d746\"/><text x=\"34\" y=\"53\">up to 50 %</text>\n",
    );
    pen.put(
        b"<rect y=\"60\" width=\"24\" height=\"16\" fill=\"#fca50a\"/><text x=\"34\" y=\"73\">up to 75 %</text>\n",
    );
    pen.put(
        b"<rect y=\"80\" width=\"24\" height=\"16\" fill=\"#f37819\"/><text x=\"34\" y=\"93\">up to 100 %</text>\n",
    );
    pen.put(
        b"<rect y=\"100\" width=\"24\" height=\"16\" fill=\"#dd513a\"/><text x=\"34\" y=\"113\">up to 105 %</text>\n",
    );
    pen.put(
        b"<rect y=\"120\" width=\"24\" height=\"16\" fill=\"#bc3754\"/><text x=\"34\" y=\"133\">up to 110 %</text>\n",
    );
    pen.put(
        b"<rect y=\"140\" width=\"24\" height=\"16\" fill=\"#932667\"/><text x=\"34\" y=\"153\">up to 120 %</text>\n",
    );
    pen.put(
        b"<rect y=\"160\" width=\"24\" height=\"16\" fill=\"#6a176e\"/><text x=\"34\" y=\"173\">up to 135 %</text>\n",
    );
    pen.put(
        b"<rect y=\"180\" width=\"24\" height=\"16\" fill=\"#420a68\"/><text x=\"34\" y=\"193\">up to 150 %</text>\n",
    );
    pen.put(
        b"<rect y=\"200\" width=\"24\" height=\"16\" fill=\"#160b39\"/><text x=\"34\" y=\"213\">up to 200 %</text>\n",
    );
    pen.put(
        b"<rect y=\"220\" width=\"24\" height=\"16\" fill=\"#000004\"/><text x=\"34\" y=\"233\">above 200 %</text>\n",
    );
}

/// Puts a sample of each kind of line over the cells.
pub(crate) fn put_line_samples<D: Desk>(pen: &mut Pen<'_, D>)
    ensures same_desk { HasSameDesk pen.old pen.new }
    ensures puts { Puts (pen_told D.told pen.old) (pen_told D.told pen.new) line_samples }
{
    pen.put(
        b"<rect x=\"6\" y=\"248\" width=\"12\" height=\"12\" fill=\"none\" stroke=\"#00a0ff\"/><text x=\"34\" y=\"259\">an edge is overfull</text>\n",
    );
    pen.put(
        b"<path stroke=\"#777\" d=\"M0 268h24M0 272h24M0 276h24M0 280h24\"/><text x=\"34\" y=\"279\">closed</text>\n",
    );
    pen.put(
        b"<path stroke=\"#777\" stroke-dasharray=\"2 4\" d=\"M0 288h24M0 292h24M0 296h24M0 300h24\"/><text x=\"34\" y=\"299\">closed on a layer</text>\n",
    );
}

/// Puts a sample of the lines of a cut.
pub(crate) fn put_cut_sample<D: Desk>(pen: &mut Pen<'_, D>)
    ensures same_desk { HasSameDesk pen.old pen.new }
    ensures puts { Puts (pen_told D.told pen.old) (pen_told D.told pen.new) cut_sample }
{
    pen.put(
        b"<path stroke=\"#009e73\" stroke-width=\"4\" d=\"M0 314h24\"/><text x=\"34\" y=\"319\">cut of the certificate</text>\n",
    );
}
