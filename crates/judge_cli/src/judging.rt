//! The command `judge`.

ghost use Rattle.std.specs.Prelude.{◌≡◌, IfOk};
ghost use Rattle.cert_text.specs.Certs.{IsCertWithin};
ghost use Rattle.grid_graph.specs.Grounds.{AreGrounds};
ghost use Rattle.route_judge.specs.Limits.{AreBlocks};
ghost use Rattle.judge_cli.specs.JudgeRun.{IsJudgeRun, IsTrueOfCert, judge_task_of};

use crate::answer::Answer;
use crate::certified_input::CertifiedInput;
use crate::judged_files::read_certified;
use crate::measuring::report_of;
use command_runs::{Refusal, refuse, say};
use command_words::JudgeRequest;
use gr_desk::Desk;
use grid_base::NoMemory;
use route_judge::Verdict;
use std::alloc::Global;
use std::thread::Threads;

/// Judges routes and a certificate, says on the report whether they are accepted, and answers the status.
pub fn judge<R: Threads + Sync, D: Desk>(
    rt: &R,
    alloc: Global,
    request: &JudgeRequest<'_>,
    desk: &mut D,
) -> u8
    ensures { IsJudgeRun (judge_task_of request.now) (D.told desk.old) (D.told desk.new) result }
{
    match read_certified(
        alloc,
        desk,
        request.input,
        request.routes,
        request.certificate,
    ) {
        Ok(read) => match answer_on_cert(rt, alloc, &read) {
            Ok(answer) => say(desk, &answer, answer.is_objection()),
            Err(NoMemory) => refuse(desk, Refusal::NoMemory),
        },
        Err(refusal) => refuse(desk, refusal),
    }
}

/// What is said of routes and a certificate.
fn answer_on_cert<R: Threads + Sync>(
    rt: &R,
    alloc: Global,
    read: &CertifiedInput,
) -> Result<Answer, NoMemory>
    requires grounds { AreGrounds read.now.routed.grounded.design.grid read.now.routed.grounded.design.nets read.now.routed.grounded.grounds.items }
    requires blocks { AreBlocks read.now.routed.blocks }
    requires cert { IsCertWithin read.now.cert }
    ensures { IfOk result (IsTrueOfCert read.now.routed.grounded.design read.now.routed.grounded.grounds.items read.now.routed.blocks read.now.cert) }
{
    let grounded = &read.routed.grounded;
    let grounds = grounded.grounds.as_slice();
    let blocks = &read.routed.blocks;
    match route_judge::judge(rt, alloc, &grounded.design, grounds, blocks, &read.cert)? {
        Verdict::Yes { measure, beyond } => Ok(Answer::Yes {
            report: report_of(grounded, measure, beyond),
            bound: read.cert.bound,
            budget: read.cert.budget,
        }),
        Verdict::No(reason) => Ok(Answer::No(reason)),
    }
}
