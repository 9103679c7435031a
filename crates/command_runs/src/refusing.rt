//! How a run is refused.

ghost use Rattle.std.specs.Prelude.{◌≡◌};
ghost use Rattle.command_runs.specs.Lines.{status_of, lines_of};
ghost use Rattle.command_runs.specs.Saying.{TriesToSay};

use crate::refusal::Refusal;
use crate::said::try_to_say;
use gr_desk::Desk;

/// Says on the report why the run is refused, and answers the status, which stays where that fails.
pub fn refuse<D: Desk>(desk: &mut D, refusal: Refusal) -> u8
    ensures status { result ≡ status_of refusal }
    ensures says { TriesToSay (lines_of refusal) (D.told desk.old) (D.told desk.new) }
{
    try_to_say(desk, &refusal);
    refusal.status()
}
