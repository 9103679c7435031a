//! How the program is called.

ghost use Rattle.std.specs.Prelude.{◌≡◌};
ghost use Rattle.gr_desk.specs.Pens.{HasSameDesk, Puts, pen_told};
ghost use Rattle.command_runs.specs.declared.refusal.Refusal.TheVariants.{NoCommand};
ghost use Rattle.command_runs.specs.Lines.{status_of};
ghost use Rattle.command_runs.specs.Saying.{TriesToSay};
ghost use Rattle.unavoidable_cli.specs.Words.{usage_text};

use command_runs::{Said, try_to_say};
use gr_desk::{Desk, Pen};

/// The status where the words are no command.
const NO_COMMAND: u8 = 2;

/// How the program is called.
#[derive(Drop)]
struct Usage;

impl Said for Usage {
    ghost may = { λ _. Unit {0} };

    ghost text = { λ _. usage_text };

    fn put<D: Desk>(&self, pen: &mut Pen<'_, D>) {
        pen.put(b"refused 2\nusage: unavoidable IN ROUTES [CERT] NEW\n");
    }
}

/// Says on the report how the program is called, and answers the status, which stays where that fails.
pub(crate) fn say_usage<D: Desk>(desk: &mut D) -> u8
    ensures status { result ≡ status_of NoCommand }
    ensures says { TriesToSay usage_text (D.told desk.old) (D.told desk.new) }
{
    try_to_say(desk, &Usage);
    NO_COMMAND
}
