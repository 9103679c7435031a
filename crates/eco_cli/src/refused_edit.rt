//! An edit that is refused.

ghost use Rattle.std.specs.Prelude.{◌≡◌};
ghost use Rattle.gr_desk.specs.Pens.{Puts, pen_told, HasSameDesk};
ghost use Rattle.command_runs.specs.Saying.{TriesToSay};
ghost use Rattle.command_runs.specs.Lines.{fields};
ghost use Rattle.eco_cli.specs.EcoLines.{in_list, refused_edit_status, refused_edit_text};

use command_runs::{Said, put_fields, try_to_say};
use eco_route::EditFault;
use gr_desk::{Desk, Pen};

/// The status of a run that an edit ends.
const REFUSED_EDIT: u8 = 9;

/// The first edit that is refused, counted from 0, and what is wrong with it.
#[derive(Clone, Copy, Debug, Drop, PartialEq, Eq)]
pub struct RefusedEdit {
    pub index: usize,
    pub fault: EditFault,
}

/// Puts the id, the pin or the terminal that a fault names, where it names one.
fn put_named<D: Desk>(pen: &mut Pen<'_, D>, field: Option<u32>)
    ensures same_desk { HasSameDesk pen.old pen.new }
    ensures puts { Puts (pen_told D.told pen.old) (pen_told D.told pen.new) (fields (in_list field)) }
{
    match field {
        Some(field) => put_fields(pen, &[u64::from(field)]),
        None => {}
    }
}

impl Said for RefusedEdit {
    ghost may = { λ _. Unit {0} };

    ghost text = { refused_edit_text };

    fn put<D: Desk>(&self, pen: &mut Pen<'_, D>) {
        pen.put(b"refused");
        put_fields(
            pen,
            &[
                u64::from(REFUSED_EDIT),
                u64::from(self.fault.number()),
                self.index as u64,
            ],
        );
        put_named(pen, self.fault.field());
        pen.put(b"\n");
    }
}

/// Says on the report which edit is refused, as far as that can be written, and answers the status.
pub(crate) fn refuse_edit<D: Desk>(desk: &mut D, refused: &RefusedEdit) -> u8
    ensures status { result ≡ refused_edit_status }
    ensures says { TriesToSay (refused_edit_text refused.now) (D.told desk.old) (D.told desk.new) }
{
    try_to_say(desk, refused);
    REFUSED_EDIT
}
