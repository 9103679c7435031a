//! The command `climb`.

ghost use Rattle.std.specs.Prelude.{IfOk};
ghost use Rattle.bound_climb.specs.Climbs.{MayBeTurns};
ghost use Rattle.cert_text.specs.Certs.{IsCertWithin};
ghost use Rattle.climb_cli.specs.declared.climb_answer.ClimbAnswer.TheVariants.{Climbed};
ghost use Rattle.climb_cli.specs.ClimbLines.{climb_outcome};
ghost use Rattle.climb_cli.specs.ClimbRun.{IsClimbRun, IsTrueOfClimb, climb_files, climb_task_of};
ghost use Rattle.command_runs.specs.Saying.{Leaves};
ghost use Rattle.command_words.specs.CommandLine.{HasClimbRanges};
ghost use Rattle.grid_graph.specs.Grounds.{AreGrounds};
ghost use Rattle.route_judge.specs.Limits.{AreBlocks};

use crate::climb_answer::ClimbAnswer;
use crate::climbed_cert::ClimbedCert;
use crate::new_cert::climbed_cert;
use command_runs::{Refusal, make_cert, refuse, say, say_unwritten};
use command_words::ClimbRequest;
use gr_desk::{Desk, Failed};
use grid_base::NoMemory;
use judge_cli::{Answer, CertifiedInput, RoutedInput, read_certified};
use route_judge::{Verdict, judge};
use std::alloc::Global;
use std::thread::Threads;

/// Judges routes and a certificate, and if they are accepted looks for prices at which the bound is greater, writes the certificate
/// with the best ones, says on the report which these are, and answers the status.
pub fn climb<R: Threads + Sync, D: Desk>(
    rt: &R,
    alloc: Global,
    request: &ClimbRequest<'_>,
    desk: &mut D,
) -> u8
    requires ranges { HasClimbRanges request.now }
    ensures { IsClimbRun (climb_task_of request.now) (D.told desk.old) (D.told desk.new) result }
{
    match read_certified(
        alloc,
        desk,
        request.input,
        request.routes,
        request.certificate,
    ) {
        Ok(read) => match answer_on(rt, alloc, read, request.turns) {
            Ok(ClimbAnswer::Climbed(new)) => finish(desk, request, &new),
            Ok(ClimbAnswer::No(reason)) => say(desk, &Answer::No(reason), true),
            Err(NoMemory) => refuse(desk, Refusal::NoMemory),
        },
        Err(refusal) => refuse(desk, refusal),
    }
}

/// Makes the file of the new certificate, and then writes the report, and answers the status.
fn finish<D: Desk>(desk: &mut D, request: &ClimbRequest<'_>, new: &ClimbedCert) -> u8
    ensures { Leaves (climb_files (climb_task_of request.now)) (climb_outcome (Climbed new.now)) (D.told desk.old) (D.told desk.new) result }
{
    match make_cert(desk, request.climbed, &new.cert) {
        Ok(()) => say(desk, new, false),
        Err(Failed) => say_unwritten(desk),
    }
}

/// What comes of routes and a certificate: another certificate, or the judge's reason against them.
fn answer_on<R: Threads + Sync>(
    rt: &R,
    alloc: Global,
    read: CertifiedInput,
    turns: u32,
) -> Result<ClimbAnswer, NoMemory>
    requires grounds { AreGrounds read.routed.grounded.design.grid read.routed.grounded.design.nets read.routed.grounded.grounds.items }
    requires blocks { AreBlocks read.routed.blocks }
    requires cert { IsCertWithin read.cert }
    requires turns { MayBeTurns turns }
    ensures { IfOk result (IsTrueOfClimb read.routed.grounded.design read.routed.grounded.grounds.items read.routed.blocks read.cert turns) }
{
    let CertifiedInput { routed, cert } = read;
    let RoutedInput { grounded, blocks } = routed;
    let grounds = grounded.grounds.as_slice();
    match judge(rt, alloc, &grounded.design, grounds, &blocks, &cert)? {
        Verdict::Yes { measure, .. } => {
            let wirelength = measure.wirelength;
            let new = climbed_cert(rt, alloc, &grounded, &blocks, wirelength, cert, turns)?;
            Ok(ClimbAnswer::Climbed(new))
        }
        Verdict::No(reason) => Ok(ClimbAnswer::No(reason)),
    }
}
