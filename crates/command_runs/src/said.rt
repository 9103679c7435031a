//! What can be said on the report.

ghost use Rattle.std.specs.Prelude.{ℕ, List};
ghost use Rattle.gr_desk.specs.declared.port.Port.TheVariants.{Report};
ghost use Rattle.gr_desk.specs.Pens.{Ends, HasSameDesk, Puts, pen_told};
ghost use Rattle.command_runs.specs.Saying.{Says, TriesToSay};

use crate::statuses::{DONE, OBJECTED, UNWRITTEN};
use gr_desk::{Desk, Failed, Pen, Port};

/// What has a text that can be put with a pen.
pub trait Said {
    /// Whether it can be.
    ghost may: { Self → Type 0 };
    /// The text.
    ghost text: { Self → List ℕ };

    /// Puts the text.
    fn put<D: Desk>(&self, pen: &mut Pen<'_, D>)
        requires { may self.now }
        ensures same_desk { HasSameDesk pen.old pen.new }
        ensures puts { Puts (pen_told D.told pen.old) (pen_told D.told pen.new) (text self.now) };
}

/// Writes it on the report.
fn write_said<D: Desk, S: Said>(desk: &mut D, said: &S) -> Result<(), Failed>
    requires { S.may said.now }
    ensures { Ends (D.told desk.old) (D.told desk.new) Report (S.text said.now) result }
{
    let mut pen = Pen::new(desk, Port::Report);
    said.put(&mut pen);
    pen.finish()
}

/// Says it on the report as far as that can be written.
pub fn try_to_say<D: Desk, S: Said>(desk: &mut D, said: &S)
    requires { S.may said.now }
    ensures { TriesToSay (S.text said.now) (D.told desk.old) (D.told desk.new) }
{
    let _ = write_said(desk, said);
}

/// Says it on the report, and answers the status: that of an objection, or else of a run that is done.
pub fn say<D: Desk, S: Said>(desk: &mut D, said: &S, objects: bool) -> u8
    requires { S.may said.now }
    ensures { Says (S.text said.now) objects (D.told desk.old) (D.told desk.new) result }
{
    match write_said(desk, said) {
        _ if objects => OBJECTED,
        Ok(()) => DONE,
        Err(Failed) => UNWRITTEN,
    }
}
