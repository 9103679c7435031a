//! The report of routes.

ghost use Rattle.std.specs.Prelude.{◌≡◌};
ghost use Rattle.gr_desk.specs.Pens.{Puts, pen_told, HasSameDesk};
ghost use Rattle.router_cli.specs.ReportLines.{report_text};

use crate::routed_design::RoutedDesign;
use cert_text::{Cert, put_labelled_fraction};
use command_runs::{Said, put_budget, put_line};
use gr_desk::{Desk, Pen};

/// Puts the report of routes: the overflow before repair, the number of its rounds, and what the certificate says.
pub(crate) fn put_report<D: Desk>(pen: &mut Pen<'_, D>, rounded: u64, rounds: u32, cert: &Cert)
    ensures same_desk { HasSameDesk pen.old pen.new }
    ensures puts { Puts (pen_told D.told pen.old) (pen_told D.told pen.new) (report_text rounded rounds cert.now) }
{
    put_line(pen, b"nets", &[u64::from(cert.nets)]);
    put_line(pen, b"forced", &[u64::from(cert.forced)]);
    put_line(pen, b"rounded", &[rounded]);
    put_line(pen, b"rounds", &[u64::from(rounds)]);
    put_line(pen, b"overflow", &[cert.overflow]);
    put_line(pen, b"wirelength", &[cert.wirelength]);
    put_labelled_fraction(pen, b"peak", cert.peak);
    put_labelled_fraction(pen, b"bound", cert.bound);
    put_budget(pen, cert.budget);
}

impl Said for RoutedDesign {
    ghost may = { λ _. Unit {0} };

    ghost text = { λ r. report_text r.rounded r.rounds r.cert };

    fn put<D: Desk>(&self, pen: &mut Pen<'_, D>) {
        put_report(pen, self.rounded, self.rounds, &self.cert);
    }
}
