//! Writes a certificate.

ghost use Rattle.std.specs.Prelude.{◌≡◌, flat_map, codes};
ghost use Rattle.gr_desk.specs.Pens.{Ends, Puts, pen_told, HasSameDesk};
ghost use Rattle.cert_text.specs.Versions.{version_text};
ghost use Rattle.cert_text.specs.CertText.{labelled, fraction_text, budget_text, price_text, cert_text};

use crate::cert::Cert;
use crate::fraction_text::put_fraction;
use crate::version::Version;
use gr_desk::{Desk, Failed, Pen, Port};
use itoa::Integer;
use tree_set::{Budget, Fraction};

/// Writes the text of a certificate to the port.
///
/// After `Failed` some part from the front of the text was written.
pub fn write_cert<D: Desk>(desk: &mut D, port: Port, cert: &Cert) -> Result<(), Failed>
    ensures ends { Ends (D.told desk.old) (D.told desk.new) port (cert_text cert.now) result }
{
    let mut pen = Pen::new(desk, port);
    put_cert(&mut pen, cert);
    pen.finish()
}

/// Puts the lines of a certificate.
fn put_cert<D: Desk>(pen: &mut Pen<'_, D>, cert: &Cert)
    ensures same_desk { HasSameDesk pen.old pen.new }
    ensures puts { Puts (pen_told D.told pen.old) (pen_told D.told pen.new) (cert_text cert.now) }
{
    put_heading(pen, Version::of(cert.budget));
    put_labelled(pen, b"nets", cert.nets);
    put_labelled(pen, b"forced", cert.forced);
    put_labelled(pen, b"overflow", cert.overflow);
    put_labelled(pen, b"wirelength", cert.wirelength);
    put_labelled_fraction(pen, b"peak", cert.peak);
    put_labelled_fraction(pen, b"bound", cert.bound);
    put_budget(pen, cert.budget);
    put_labelled(pen, b"prices", cert.prices.list().len());
    put_prices(pen, cert.prices.list());
}

/// Puts the first line: what the text is, and its version.
fn put_heading<D: Desk>(pen: &mut Pen<'_, D>, version: Version)
    ensures same_desk { HasSameDesk pen.old pen.new }
    ensures puts { Puts (pen_told D.told pen.old) (pen_told D.told pen.new) (labelled (codes "grouter certificate") (version_text version)) }
{
    pen.put(b"grouter certificate ");
    pen.put(version.text());
    pen.put(b"\n");
}

/// Puts a line: a label, and a number behind it.
fn put_labelled<D: Desk, I: Integer>(pen: &mut Pen<'_, D>, label: &[u8], number: I)
    ensures same_desk { HasSameDesk pen.old pen.new }
    ensures puts { Puts (pen_told D.told pen.old) (pen_told D.told pen.new) (labelled label.now (I.text number)) }
{
    pen.put(label);
    pen.put(b" ");
    pen.put_number(number);
    pen.put(b"\n");
}

/// Puts a line: a label, and a fraction behind it as numerator, `/` and denominator, or the word `none`.
pub fn put_labelled_fraction<D: Desk>(
    pen: &mut Pen<'_, D>,
    label: &[u8],
    fraction: Option<Fraction>,
)
    ensures same_desk { HasSameDesk pen.old pen.new }
    ensures puts { Puts (pen_told D.told pen.old) (pen_told D.told pen.new) (labelled label.now (fraction_text fraction)) }
{
    pen.put(label);
    pen.put(b" ");
    put_fraction(pen, fraction);
    pen.put(b"\n");
}

/// Puts the line of the budget, where there is one.
fn put_budget<D: Desk>(pen: &mut Pen<'_, D>, budget: Option<Budget>)
    ensures same_desk { HasSameDesk pen.old pen.new }
    ensures puts { Puts (pen_told D.told pen.old) (pen_told D.told pen.new) (budget_text budget) }
{
    if let Some(budget) = budget {
        pen.put(b"budget ");
        pen.put_number(budget.most);
        pen.put(b" ");
        pen.put_number(budget.price);
        pen.put(b"\n");
    }
}

/// Puts the prices, one a line.
fn put_prices<D: Desk>(pen: &mut Pen<'_, D>, prices: &[u32])
    ensures same_desk { HasSameDesk pen.old pen.new }
    ensures puts { Puts (pen_told D.told pen.old) (pen_told D.told pen.new) (flat_map price_text prices.now) }
{
    for price in prices {
        put_price(pen, *price);
    }
}

/// Puts the line of a price.
fn put_price<D: Desk>(pen: &mut Pen<'_, D>, price: u32)
    ensures same_desk { HasSameDesk pen.old pen.new }
    ensures puts { Puts (pen_told D.told pen.old) (pen_told D.told pen.new) (price_text price) }
{
    pen.put_number(price);
    pen.put(b"\n");
}
