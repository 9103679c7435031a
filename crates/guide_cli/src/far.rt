//! How a design is refused that is not near.

ghost use Rattle.std.specs.Prelude.{◌≡◌};
ghost use Rattle.gr_desk.specs.Pens.{HasSameDesk, Puts, pen_told};
ghost use Rattle.command_runs.specs.Saying.{TriesToSay};
ghost use Rattle.guide_cli.specs.GuideLines.{far_status, far_line};

use command_runs::{Said, put_line, try_to_say};
use gr_desk::{Desk, Pen};

/// The status of a run on such a design, that of an input that is no design.
const FAR_STATUS: u8 = 3;

/// The number of the refusal.
const FAR_NUMBER: u64 = 23;

/// That a design is not near.
#[derive(Drop)]
struct FarDesign;

impl Said for FarDesign {
    ghost may = { λ _. Unit {0} };

    ghost text = { λ _. far_line };

    fn put<D: Desk>(&self, pen: &mut Pen<'_, D>) {
        put_line(pen, b"refused", &[u64::from(FAR_STATUS), FAR_NUMBER]);
    }
}

/// Says on the report that the design is not near, as far as that can be written, and answers the status.
pub(crate) fn refuse_far<D: Desk>(desk: &mut D) -> u8
    ensures status { result ≡ far_status }
    ensures says { TriesToSay far_line (D.told desk.old) (D.told desk.new) }
{
    try_to_say(desk, &FarDesign);
    FAR_STATUS
}
