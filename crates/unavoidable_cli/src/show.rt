//! What the program does where its words are a command.

ghost use Rattle.std.specs.Prelude.{◌≡◌};
ghost use Rattle.command_runs.specs.Saying.{Leaves};
ghost use Rattle.unavoidable_cli.specs.FoundHeadline.{run_outcome};
ghost use Rattle.unavoidable_cli.specs.Report.{HasEdges};
ghost use Rattle.unavoidable_cli.specs.UnavoidableRun.{IsUnavoidableRun, unavoidable_files};
ghost use Rattle.unavoidable_cli.specs.Words.{unavoidable_task_of};

use crate::finding::Finding;
use crate::given::read_given;
use crate::names::Names;
use crate::outcome::{Outcome, outcome_of};
use command_runs::{Refusal, make_cert, refuse, say, say_unwritten};
use gr_desk::{Desk, Failed};
use grid_base::NoMemory;
use judge_cli::Answer;
use std::alloc::Global;
use std::thread::Threads;

/// Finds what no routing on the grounds avoids, writes the new certificate, reports what was found, and answers the status.
pub(crate) fn show<R: Threads + Sync, D: Desk>(
    rt: &R,
    alloc: Global,
    names: &Names<'_>,
    desk: &mut D,
) -> u8
    ensures { IsUnavoidableRun (unavoidable_task_of names.now) (D.told desk.old) (D.told desk.new) result }
{
    match read_given(alloc, desk, names) {
        Ok(read) => match outcome_of(rt, alloc, read) {
            Ok(Outcome::Found(finding)) => finish(desk, names, &finding),
            Ok(Outcome::Objected(reason)) => say(desk, &Answer::No(reason), true),
            Err(NoMemory) => refuse(desk, Refusal::NoMemory),
        },
        Err(refusal) => refuse(desk, refusal),
    }
}

/// Makes the file of the new certificate and writes the report, and answers the status.
fn finish<D: Desk>(desk: &mut D, names: &Names<'_>, finding: &Finding) -> u8
    requires { HasEdges finding.now }
    ensures { Leaves (unavoidable_files (unavoidable_task_of names.now)) (run_outcome (Outcome.Found finding.now)) (D.told desk.old) (D.told desk.new) result }
{
    match make_cert(desk, names.new_certificate, &finding.new) {
        Ok(()) => say(desk, finding, false),
        Err(Failed) => say_unwritten(desk),
    }
}
