//! The files that edits are made of.

ghost use Rattle.std.specs.Prelude.{◌≡◌, All, IfOk};
ghost use Rattle.gr_desk.specs.declared.port.Port.TheVariants.{EditsIn};
ghost use Rattle.edit_text.specs.EditRanges.{IsEditInRange};
ghost use Rattle.command_runs.specs.Steps.{ReadsSources};
ghost use Rattle.eco_cli.specs.EcoInputs.{AreReadEdits, IsEcoInput, IsJudgedInput, ReadsEco, edits_source, routed_sources};
ghost use Rattle.eco_cli.specs.EcoRun.{eco_task_of};

use crate::eco_input::EcoInput;
use crate::judged_input::JudgedInput;
use crate::judged_routes::JudgedRoutes;
use command_runs::{GroundedDesign, Refusal, read_source};
use command_words::EcoRequest;
use edit_text::{Edit, read_edits};
use gr_desk::{Desk, Port};
use judge_cli::{RoutedInput, read_routed};
use route_judge::{CheckedSets, judge_sets};
use std::alloc::Global;

/// The edits of the text under the name.
fn read_edit_list<D: Desk>(alloc: Global, desk: &mut D, name: &str) -> Result<Vec<Edit>, Refusal>
    ensures edits { IfOk result (λ v. AreReadEdits name.now (D.told desk.old) v.items) }
    ensures ranges { IfOk result (λ v. All IsEditInRange v.items) }
    ensures reads { ReadsSources (edits_source name.now) (D.told desk.old) (D.told desk.new) result }
{
    let bytes = read_source(alloc, desk, Port::EditsIn, name)?;
    Ok(read_edits(alloc, bytes.as_slice())?)
}

/// The design under its name with the sets of the routes under theirs, read one after the other.
fn read_judged<D: Desk>(
    alloc: Global,
    desk: &mut D,
    request: &EcoRequest<'_>,
) -> Result<JudgedInput, Refusal>
    ensures judged { IfOk result (IsJudgedInput (eco_task_of request.now) (D.told desk.old)) }
    ensures reads { ReadsSources (routed_sources (eco_task_of request.now)) (D.told desk.old) (D.told desk.new) result }
{
    let RoutedInput { grounded, blocks } = read_routed(alloc, desk, request.input, request.routes)?;
    let GroundedDesign { design, .. } = grounded;
    match judge_sets(alloc, &design, &blocks)? {
        CheckedSets::Yes(trees) => Ok(JudgedInput::Routed(JudgedRoutes { design, trees })),
        CheckedSets::No(reason) => Ok(JudgedInput::Objected(reason)),
    }
}

/// The routed design and the edits under the names; behind routes that are not accepted nothing is read.
pub(crate) fn read_eco<D: Desk>(
    alloc: Global,
    desk: &mut D,
    request: &EcoRequest<'_>,
) -> Result<EcoInput, Refusal>
    ensures input { IfOk result (IsEcoInput (eco_task_of request.now) (D.told desk.old)) }
    ensures reads { ReadsEco (eco_task_of request.now) (D.told desk.old) (D.told desk.new) result }
{
    match read_judged(alloc, desk, request)? {
        JudgedInput::Routed(routed) => {
            let edits = read_edit_list(alloc, desk, request.edits)?;
            Ok(EcoInput::Edits { routed, edits })
        }
        JudgedInput::Objected(reason) => Ok(EcoInput::Objected(reason)),
    }
}
