//! Fractions as text.

ghost use Rattle.std.specs.Prelude.{◌≡◌};
ghost use Rattle.gr_desk.specs.Pens.{Puts, pen_told, HasSameDesk};
ghost use Rattle.cert_text.specs.CertText.{fraction_text};

use gr_desk::{Desk, Pen};
use tree_set::Fraction;

/// Puts a fraction as numerator, `/` and denominator, or the word `none`.
pub fn put_fraction<D: Desk>(pen: &mut Pen<'_, D>, fraction: Option<Fraction>)
    ensures same_desk { HasSameDesk pen.old pen.new }
    ensures puts { Puts (pen_told D.told pen.old) (pen_told D.told pen.new) (fraction_text fraction) }
{
    match fraction {
        Some(fraction) => {
            pen.put_number(fraction.num);
            pen.put(b"/");
            pen.put_number(fraction.den);
        }
        None => pen.put(b"none"),
    }
}
