//! How a run says that it could not write a file.

ghost use Rattle.std.specs.Prelude.{◌≡◌};
ghost use Rattle.gr_desk.specs.Pens.{HasSameDesk, Puts, pen_told};
ghost use Rattle.command_runs.specs.Lines.{unwritten_status, unwritten_line};
ghost use Rattle.command_runs.specs.Saying.{TriesToSay};

use crate::lines::put_line;
use crate::said::{Said, try_to_say};
use crate::statuses::UNWRITTEN;
use gr_desk::{Desk, Pen};

/// That a file could not be written.
#[derive(Drop)]
struct Unwritten;

impl Said for Unwritten {
    ghost may = { λ _. Unit {0} };

    ghost text = { λ _. unwritten_line };

    fn put<D: Desk>(&self, pen: &mut Pen<'_, D>) {
        put_line(pen, b"refused", &[u64::from(UNWRITTEN)]);
    }
}

/// Says on the report that a file could not be written, as far as that can be written, and answers the status.
pub fn say_unwritten<D: Desk>(desk: &mut D) -> u8
    ensures status { result ≡ unwritten_status }
    ensures says { TriesToSay unwritten_line (D.told desk.old) (D.told desk.new) }
{
    try_to_say(desk, &Unwritten);
    UNWRITTEN
}
