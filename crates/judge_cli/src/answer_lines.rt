//! Lines of what is said of routes that are judged.

ghost use Rattle.std.specs.Prelude.{◌≡◌};
ghost use Rattle.gr_desk.specs.Pens.{Puts, pen_told, HasSameDesk};
ghost use Rattle.judge_cli.specs.AnswerLines.{answer_text, fraction_fields, reason_fields, reason_text, routes_report_text};

use crate::answer::Answer;
use crate::routes_report::RoutesReport;
use cert_text::{put_fraction, put_labelled_fraction};
use command_runs::{Said, put_budget, put_fields, put_line};
use gr_desk::{Desk, Pen};
use route_judge::Reason;
use tree_set::Fraction;

/// Puts two fractions or `none`, each behind a space.
fn put_fractions<D: Desk>(pen: &mut Pen<'_, D>, stated: Option<Fraction>, found: Option<Fraction>)
    ensures same_desk { HasSameDesk pen.old pen.new }
    ensures puts { Puts (pen_told D.told pen.old) (pen_told D.told pen.new) (fraction_fields stated found) }
{
    pen.put(b" ");
    put_fraction(pen, stated);
    pen.put(b" ");
    put_fraction(pen, found);
}

/// Puts what a reason names.
fn put_reason_fields<D: Desk>(pen: &mut Pen<'_, D>, reason: Reason)
    ensures same_desk { HasSameDesk pen.old pen.new }
    ensures puts { Puts (pen_told D.told pen.old) (pen_told D.told pen.new) (reason_fields reason) }
{
    match reason {
        Reason::UnknownNet { block } => put_fields(pen, &[u64::from(block)]),
        Reason::RepeatedNet { id } | Reason::MissingNet { id } | Reason::NotJoined { id } => {
            put_fields(pen, &[u64::from(id)]);
        }
        Reason::PointOutside { block, segment }
        | Reason::Slanted { block, segment }
        | Reason::OnWall { block, segment } => {
            put_fields(pen, &[u64::from(block), u64::from(segment)]);
        }
        Reason::WrongOverflow { stated, found } | Reason::WrongWirelength { stated, found } => {
            put_fields(pen, &[stated, found]);
        }
        Reason::WrongPeak { stated, found } | Reason::BoundTooHigh { stated, found } => {
            put_fractions(pen, stated, found);
        }
        Reason::WrongCount {
            what,
            stated,
            found,
        } => {
            pen.put(b" ");
            pen.put(what.word().as_bytes());
            put_fields(pen, &[stated, found]);
        }
    }
}

/// Puts the line of a reason.
fn put_reason<D: Desk>(pen: &mut Pen<'_, D>, reason: Reason)
    ensures same_desk { HasSameDesk pen.old pen.new }
    ensures puts { Puts (pen_told D.told pen.old) (pen_told D.told pen.new) (reason_text reason) }
{
    pen.put(b"no");
    put_fields(pen, &[u64::from(reason.number())]);
    put_reason_fields(pen, reason);
    pen.put(b"\n");
}

/// Puts the six lines of routes that are accepted.
fn put_routes_report<D: Desk>(pen: &mut Pen<'_, D>, report: RoutesReport)
    ensures same_desk { HasSameDesk pen.old pen.new }
    ensures puts { Puts (pen_told D.told pen.old) (pen_told D.told pen.new) (routes_report_text report) }
{
    put_line(pen, b"nets", &[report.nets]);
    put_line(pen, b"forced", &[report.forced]);
    put_line(pen, b"beyond", &[u64::from(report.beyond)]);
    put_line(pen, b"overflow", &[report.measure.overflow]);
    put_line(pen, b"wirelength", &[report.measure.wirelength]);
    put_labelled_fraction(pen, b"peak", report.measure.peak);
}

impl Said for Answer {
    ghost may = { λ _. Unit {0} };

    ghost text = { answer_text };

    fn put<D: Desk>(&self, pen: &mut Pen<'_, D>) {
        match *self {
            Answer::Measured(report) => put_routes_report(pen, report),
            Answer::Yes {
                report,
                bound,
                budget,
            } => {
                pen.put(b"yes\n");
                put_routes_report(pen, report);
                put_labelled_fraction(pen, b"bound", bound);
                put_budget(pen, budget);
            }
            Answer::No(reason) => put_reason(pen, reason),
        }
    }
}
