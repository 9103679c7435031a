//! What the program does where its words are a command.

ghost use Rattle.std.specs.Prelude.{◌≡◌, IfSome};
ghost use Rattle.command_runs.specs.Saying.{Leaves};
ghost use Rattle.command_words.specs.MapLine.{IsLayerNumber, map_task_of};
ghost use Rattle.congestion_cli.specs.Drawings.{IsDrawable};
ghost use Rattle.congestion_cli.specs.MapHeadline.{run_outcome};
ghost use Rattle.congestion_cli.specs.MapRun.{IsMapRun};
ghost use Rattle.congestion_cli.specs.MapSources.{map_files};

use crate::drawing::Drawing;
use crate::map_file::make_map;
use crate::map_input::read_map_input;
use crate::outcome::{Outcome, outcome_of};
use command_runs::{Refusal, refuse, say, say_unwritten};
use command_words::MapRequest;
use gr_desk::{Desk, Failed};
use grid_base::NoMemory;
use judge_cli::{Answer, RoutesReport};
use std::alloc::Global;

/// Draws the map of what is read, reports what is measured of the routes, and answers the status.
pub(crate) fn show<D: Desk>(alloc: Global, request: &MapRequest<'_>, desk: &mut D) -> u8
    requires { IfSome request.now.layer IsLayerNumber }
    ensures { IsMapRun (map_task_of request.now) (D.told desk.old) (D.told desk.new) result }
{
    match read_map_input(alloc, desk, request) {
        Ok(read) => match outcome_of(alloc, request, read) {
            Ok(Outcome::Drawn { drawing, report }) => finish(desk, request, &drawing, report),
            Ok(Outcome::Objected(reason)) => say(desk, &Answer::No(reason), true),
            Ok(Outcome::NoLayer(missing)) => say(desk, &missing, true),
            Err(NoMemory) => refuse(desk, Refusal::NoMemory),
        },
        Err(refusal) => refuse(desk, refusal),
    }
}

/// Makes the file of the map and writes the report, and answers the status.
fn finish<D: Desk>(
    desk: &mut D,
    request: &MapRequest<'_>,
    drawing: &Drawing,
    report: RoutesReport,
) -> u8
    requires { IsDrawable drawing.now }
    ensures { Leaves (map_files (map_task_of request.now)) (run_outcome (map_task_of request.now) (Outcome.Drawn drawing.now report)) (D.told desk.old) (D.told desk.new) result }
{
    match make_map(desk, request.map, request.input, drawing) {
        Ok(()) => say(desk, &Answer::Measured(report), false),
        Err(Failed) => say_unwritten(desk),
    }
}
