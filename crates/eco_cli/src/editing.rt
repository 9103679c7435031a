//! Edits of a routed design, one after the other.

ghost use Rattle.std.specs.Prelude.{All, IfOk, IfErr, OnOk};
ghost use Rattle.edit_text.specs.EditRanges.{IsEditInRange};
ghost use Rattle.eco_laws.specs.EcoChains.{AreEcoSteps};
ghost use Rattle.eco_cli.specs.Editable.{IsEditable, IsStopFor};
ghost use Rattle.eco_cli.specs.EcoRun.{IsTrueOfEdits};

use crate::eco_answer::EcoAnswer;
use crate::edit_stop::EditStop;
use crate::edited_routes::EditedRoutes;
use crate::judged_routes::JudgedRoutes;
use crate::refused_edit::RefusedEdit;
use crate::reporting::report_of;
use eco_route::{Eco, EditRefusal};
use edit_text::Edit;
use grid_base::NoMemory;
use std::alloc::Global;

/// Makes all edits, as far as none is refused.
fn make_edits(eco: &mut Eco, edits: &[Edit]) -> Result<(), EditStop>
    requires ranges { All IsEditInRange edits.now }
    ensures steps { OnOk result (AreEcoSteps edits.now eco.old eco.new) }
    ensures stopped { IfErr result (IsStopFor edits.now eco.old.design) }
{
    for index in 0..edits.len() {
        match eco.apply(&edits[index]) {
            Ok(()) => {}
            Err(EditRefusal::Fault(fault)) => {
                return Err(EditStop::Refused(RefusedEdit { index, fault }));
            }
            Err(EditRefusal::NoMemory) => return Err(EditStop::NoMemory),
        }
    }
    Ok(())
}

/// What comes of the edits of a routed design.
pub(crate) fn edit(
    alloc: Global,
    routed: JudgedRoutes,
    edits: &[Edit],
) -> Result<EcoAnswer, NoMemory>
    requires editable { IsEditable routed.design routed.trees.items }
    requires ranges { All IsEditInRange edits.now }
    ensures { IfOk result (IsTrueOfEdits edits.now routed.design routed.trees.items) }
{
    let Ok(mut eco) = Eco::open(alloc, routed.design, routed.trees) else {
        return Err(NoMemory);
    };
    match make_edits(&mut eco, edits) {
        Ok(()) => {
            let report = report_of(alloc, &eco, edits)?;
            Ok(EcoAnswer::Edited(EditedRoutes { eco, report }))
        }
        Err(EditStop::Refused(refused)) => Ok(EcoAnswer::Refused(refused)),
        Err(EditStop::NoMemory) => Err(NoMemory),
    }
}
