//! The report of new routes.

ghost use Rattle.std.specs.Prelude.{◌≡◌};
ghost use Rattle.gr_desk.specs.Pens.{HasSameDesk, Puts, pen_told};
ghost use Rattle.reroute_cli.specs.Report.{counts_text, reroute_report_text};

use crate::new_routes::NewRoutes;
use crate::reroute_report::RerouteReport;
use cert_text::put_labelled_fraction;
use command_runs::{Said, put_line};
use gr_desk::{Desk, Pen};

/// Puts how many nets there are and what became of them.
fn put_counts<D: Desk>(pen: &mut Pen<'_, D>, report: &RerouteReport)
    ensures same_desk { HasSameDesk pen.old pen.new }
    ensures puts { Puts (pen_told D.told pen.old) (pen_told D.told pen.new) (counts_text report.now) }
{
    put_line(pen, b"nets", &[report.nets]);
    put_line(pen, b"forced", &[report.forced]);
    put_line(pen, b"routed", &[report.routed]);
    put_line(pen, b"rerouted", &[report.rerouted]);
    put_line(pen, b"rounds", &[u64::from(report.rounds)]);
}

impl Said for NewRoutes {
    ghost may = { λ _. Unit {0} };

    ghost text = { λ new. reroute_report_text new.report };

    fn put<D: Desk>(&self, pen: &mut Pen<'_, D>) {
        let report = &self.report;
        put_counts(pen, report);
        put_line(pen, b"overflow", &[report.measure.overflow]);
        put_line(pen, b"wirelength", &[report.measure.wirelength]);
        put_labelled_fraction(pen, b"peak", report.measure.peak);
        put_line(
            pen,
            b"given",
            &[report.given.overflow, report.given.wirelength],
        );
    }
}
