//! The command `measure`.

ghost use Rattle.std.specs.Prelude.{◌≡◌, IfOk, length};
ghost use Rattle.grid_graph.specs.Grounds.{AreGrounds};
ghost use Rattle.route_judge.specs.Counts as counts;
ghost use Rattle.route_judge.specs.Limits.{AreBlocks};
ghost use Rattle.judge_cli.specs.MeasureRun.{IsMeasureRun, IsTrueOfRoutes, measure_task_of};

use crate::answer::Answer;
use crate::judged_files::read_routed;
use crate::routed_input::RoutedInput;
use crate::routes_report::RoutesReport;
use command_runs::{GroundedDesign, Refusal, refuse, say};
use command_words::MeasureRequest;
use gr_desk::Desk;
use grid_base::NoMemory;
use route_judge::{Checked, forced_count, judge_routes};
use std::alloc::Global;
use tree_set::Measure;

/// Measures routes, says on the report what they measure, or why they are none, and answers the status.
pub fn measure<D: Desk>(alloc: Global, request: &MeasureRequest<'_>, desk: &mut D) -> u8
    ensures { IsMeasureRun (measure_task_of request.now) (D.told desk.old) (D.told desk.new) result }
{
    match read_routed(alloc, desk, request.input, request.routes) {
        Ok(read) => match answer_on_routes(alloc, &read) {
            Ok(answer) => say(desk, &answer, answer.is_objection()),
            Err(NoMemory) => refuse(desk, Refusal::NoMemory),
        },
        Err(refusal) => refuse(desk, refusal),
    }
}

/// What is said of routes: what they measure, or the first reason against them.
pub fn answer_on_routes(alloc: Global, read: &RoutedInput) -> Result<Answer, NoMemory>
    requires grounds { AreGrounds read.now.grounded.design.grid read.now.grounded.design.nets read.now.grounded.grounds.items }
    requires blocks { AreBlocks read.now.blocks }
    ensures { IfOk result (IsTrueOfRoutes read.now.grounded.design read.now.grounded.grounds.items read.now.blocks) }
{
    let grounds = read.grounded.grounds.as_slice();
    match judge_routes(alloc, &read.grounded.design, grounds, &read.blocks)? {
        Checked::Yes { measure, beyond } => {
            Ok(Answer::Measured(report_of(&read.grounded, measure, beyond)))
        }
        Checked::No(reason) => Ok(Answer::No(reason)),
    }
}

/// What is reported of routes with this measure, of whose nets so many go beyond their grounds.
pub(crate) fn report_of(grounded: &GroundedDesign, measure: Measure, beyond: u32) -> RoutesReport
    ensures { result ≡ record {
      nets = length grounded.now.design.nets;
      forced = counts.forced_count grounded.now.grounds.items;
      beyond = beyond;
      measure = measure;
    } }
{
    RoutesReport {
        nets: grounded.design.nets.list().len() as u64,
        forced: forced_count(grounded.grounds.as_slice()),
        beyond,
        measure,
    }
}
