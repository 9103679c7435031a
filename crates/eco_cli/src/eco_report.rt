//! What is reported of an edited design and its routes.

ghost use Rattle.std.specs.Prelude.{◌≡◌};
ghost use Rattle.gr_desk.specs.Pens.{Puts, pen_told, HasSameDesk};
ghost use Rattle.eco_cli.specs.EcoLines.{eco_report_text};

use cert_text::put_labelled_fraction;
use command_runs::{Said, put_line};
use gr_desk::{Desk, Pen};
use tree_set::Measure;

/// What is reported of an edited design and its routes.
#[derive(Clone, Copy, Debug, Drop, PartialEq, Eq)]
pub struct EcoReport {
    /// How many nets the edited design has.
    pub nets: u64,
    /// How many of them are joined by open and choked edges alone, and not by open ones.
    pub forced: u64,
    /// How many nets no edit added or changed.
    pub kept: u64,
    /// How many nets some edit added or changed.
    pub routed: u64,
    pub measure: Measure,
}

impl Said for EcoReport {
    ghost may = { λ _. Unit {0} };

    ghost text = { eco_report_text };

    fn put<D: Desk>(&self, pen: &mut Pen<'_, D>) {
        put_line(pen, b"nets", &[self.nets]);
        put_line(pen, b"forced", &[self.forced]);
        put_line(pen, b"kept", &[self.kept]);
        put_line(pen, b"routed", &[self.routed]);
        put_line(pen, b"overflow", &[self.measure.overflow]);
        put_line(pen, b"wirelength", &[self.measure.wirelength]);
        put_labelled_fraction(pen, b"peak", self.measure.peak);
    }
}
