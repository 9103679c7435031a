//! The command `eco`.

ghost use Rattle.std.specs.Prelude.{◌≡◌};
ghost use Rattle.command_runs.specs.Saying.{Leaves};
ghost use Rattle.eco_cli.specs.EcoLines.{eco_outcome};
ghost use Rattle.eco_cli.specs.EcoRun.{IsEcoRun, eco_files, eco_task_of};

use crate::eco_answer::EcoAnswer;
use crate::eco_files::read_eco;
use crate::eco_input::EcoInput;
use crate::edited_routes::EditedRoutes;
use crate::editing::edit;
use crate::refused_edit::refuse_edit;
use command_runs::{Refusal, make_routes, refuse, say, say_unwritten};
use command_words::EcoRequest;
use gr_desk::{Desk, Failed};
use grid_base::NoMemory;
use judge_cli::Answer;
use std::alloc::Global;

/// Edits a routed design, writes the routes of the edited one, says on the report what they measure, and answers the status. Routes
/// that are not accepted and an edit that is refused end the run, and no file is made.
pub fn eco<D: Desk>(alloc: Global, request: &EcoRequest<'_>, desk: &mut D) -> u8
    ensures { IsEcoRun (eco_task_of request.now) (D.told desk.old) (D.told desk.new) result }
{
    match read_eco(alloc, desk, request) {
        Ok(EcoInput::Objected(reason)) => say(desk, &Answer::No(reason), true),
        Ok(EcoInput::Edits { routed, edits }) => match edit(alloc, routed, edits.as_slice()) {
            Ok(EcoAnswer::Edited(edited)) => finish(desk, request, &edited),
            Ok(EcoAnswer::Refused(refused)) => refuse_edit(desk, &refused),
            Err(NoMemory) => refuse(desk, Refusal::NoMemory),
        },
        Err(refusal) => refuse(desk, refusal),
    }
}

/// Makes the file of the routes, and then writes the report, and answers the status.
fn finish<D: Desk>(desk: &mut D, request: &EcoRequest<'_>, edited: &EditedRoutes) -> u8
    ensures { Leaves (eco_files (eco_task_of request.now)) (eco_outcome edited.now) (D.told desk.old) (D.told desk.new) result }
{
    match make_routes(
        desk,
        request.edited,
        edited.eco.design(),
        edited.eco.trees(),
    ) {
        Ok(()) => say(desk, &edited.report, false),
        Err(Failed) => say_unwritten(desk),
    }
}
