//! The report of a climb.

ghost use Rattle.std.specs.Prelude.{◌≡◌};
ghost use Rattle.gr_desk.specs.Pens.{Puts, pen_told, HasSameDesk};
ghost use Rattle.climb_cli.specs.ClimbLines.{climbed_text};

use crate::climbed_cert::ClimbedCert;
use cert_text::put_labelled_fraction;
use command_runs::{Said, put_line};
use gr_desk::{Desk, Pen};

impl Said for ClimbedCert {
    ghost may = { λ _. Unit {0} };

    ghost text = { climbed_text };

    fn put<D: Desk>(&self, pen: &mut Pen<'_, D>) {
        put_line(pen, b"turn", &[u64::from(self.turn)]);
        put_labelled_fraction(pen, b"bound", self.cert.bound);
    }
}
