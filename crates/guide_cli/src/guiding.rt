//! The command `guide`.

ghost use Rattle.std.specs.Prelude.{IfOk};
ghost use Rattle.grid_graph.specs.Borders.{HasBordersInRange};
ghost use Rattle.route_judge.specs.Limits.{AreBlocks};
ghost use Rattle.command_runs.specs.Saying.{Leaves};
ghost use Rattle.guide_cli.specs.declared.guide_answer.GuideAnswer.TheVariants.{Guided};
ghost use Rattle.guide_cli.specs.GuideLines.{guide_outcome};
ghost use Rattle.guide_cli.specs.GuideRun.{IsTrueOfGuides, IsGuideRun, guide_files, guide_task_of};

use crate::far::refuse_far;
use crate::guide_answer::GuideAnswer;
use crate::guided_files::read_guided;
use crate::guided_input::GuidedInput;
use crate::guided_routes::GuidedRoutes;
use crate::outputs::make_guides;
use command_runs::{Refusal, refuse, say, say_unwritten};
use command_words::GuideRequest;
use gr_desk::{Desk, Failed};
use grid_base::NoMemory;
use guide_text::guides_of;
use judge_cli::{Answer, RoutedInput};
use route_judge::{CheckedSets, judge_sets};
use std::alloc::Global;

/// Judges routes, writes their guides if they are accepted, says on the report how many, or why they are no routes, and answers the
/// status.
pub fn guide<D: Desk>(alloc: Global, request: &GuideRequest<'_>, desk: &mut D) -> u8
    ensures { IsGuideRun (guide_task_of request.now) (D.told desk.old) (D.told desk.new) result }
{
    match read_guided(alloc, desk, request.input, request.routes) {
        Ok(GuidedInput::Far) => refuse_far(desk),
        Ok(GuidedInput::Routes(read)) => match answer_on(alloc, &read) {
            Ok(GuideAnswer::Guided(guided)) => finish(desk, request, &guided),
            Ok(GuideAnswer::No(reason)) => say(desk, &Answer::No(reason), true),
            Err(NoMemory) => refuse(desk, Refusal::NoMemory),
        },
        Err(refusal) => refuse(desk, refusal),
    }
}

/// Makes the file of the guides, and then writes the report, and answers the status.
fn finish<D: Desk>(desk: &mut D, request: &GuideRequest<'_>, guided: &GuidedRoutes) -> u8
    ensures { Leaves (guide_files (guide_task_of request.now)) (guide_outcome (Guided guided.now)) (D.told desk.old) (D.told desk.new) result }
{
    match make_guides(desk, request.guides, guided.guides.as_slice()) {
        Ok(()) => say(desk, guided, false),
        Err(Failed) => say_unwritten(desk),
    }
}

/// What comes of routes: their guides, or the first reason against them.
fn answer_on(alloc: Global, read: &RoutedInput) -> Result<GuideAnswer, NoMemory>
    requires blocks { AreBlocks read.now.blocks }
    requires near { HasBordersInRange read.now.grounded.design.grid }
    ensures { IfOk result (IsTrueOfGuides read.now.grounded.design read.now.blocks) }
{
    let design = &read.grounded.design;
    match judge_sets(alloc, design, &read.blocks)? {
        CheckedSets::Yes(trees) => {
            let guides = guides_of(alloc, design, trees.as_slice())?;
            Ok(GuideAnswer::Guided(GuidedRoutes { guides }))
        }
        CheckedSets::No(reason) => Ok(GuideAnswer::No(reason)),
    }
}
