//! The command `trial`.

ghost use Rattle.std.specs.Prelude.{◌≡◌, IfOk, IsErrOf};
ghost use Rattle.command_words.specs.CommandLine.{HasTrialRanges};
ghost use Rattle.gr_desk.specs.Pens.{HasSameDesk, Puts, pen_told};
ghost use Rattle.gr_make.specs.Shapes.{IsShape};
ghost use Rattle.routing_stages.specs.Settings.{AreSettings};
ghost use Rattle.command_runs.specs.declared.refusal.Refusal.{Refusal};
ghost use Rattle.router_cli.specs.TrialRun.{IsTrialRun, IsTrialOutcome, trial_settings, trial_task_of, trial_text, tried_outcome};

use crate::prepared::route_design;
use crate::report::put_report;
use crate::routed_design::RoutedDesign;
use crate::trial_texts::{judge_texts, made_design};
use command_runs::{GroundedDesign, Refusal, Said, refuse, say};
use command_words::TrialRequest;
use gr_desk::{Desk, Pen};
use gr_make::Shape;
use routing_stages::{Gate, Settings};
use std::alloc::Global;
use std::thread::Threads;

/// Routes the design that is made for the request, judges what is written of it, all of it in memory, reports the run, and
/// answers the status.
pub(crate) fn trial<R: Threads + Sync, D: Desk, G: Gate>(
    rt: &R,
    alloc: Global,
    request: &TrialRequest,
    desk: &mut D,
    gate: &G,
) -> u8
    requires ranges { HasTrialRanges request.now }
    ensures { IsTrialRun (trial_task_of request.now) (D.told desk.old) (D.told desk.new) result }
{
    match tried(rt, alloc, request, gate) {
        Ok(routed) => say(desk, &AcceptedDesign { routed }, false),
        Err(refusal) => refuse(desk, refusal),
    }
}

/// How large the design is to be.
fn shape_of(request: &TrialRequest) -> Shape
    requires { HasTrialRanges request.now }
    ensures shape { result ≡ (trial_task_of request.now).shape }
    ensures limits { IsShape result }
{
    Shape {
        cols: request.cols,
        rows: request.rows,
        layers: request.layers,
        nets: request.nets,
    }
}

/// How it is routed.
fn settings_of(request: &TrialRequest) -> Settings
    ensures settings { result ≡ trial_settings request.now.seed }
    ensures limits { AreSettings result }
{
    Settings {
        workers: 1,
        phases: 4,
        rounds: 4,
        seed: request.seed,
        budget: None,
    }
}

/// The design that is made for the request, with routes, of which the judge accepts what is written.
fn tried<R: Threads + Sync, G: Gate>(
    rt: &R,
    alloc: Global,
    request: &TrialRequest,
    gate: &G,
) -> Result<RoutedDesign, Refusal>
    requires ranges { HasTrialRanges request.now }
    ensures outcome { IfOk result (λ r. IsTrialOutcome (trial_task_of request.now) (tried_outcome r)) }
    ensures refused { (r : Refusal) → IsErrOf result r → r ≡ Refusal.NoMemory }
{
    let GroundedDesign { design, grounds } = made_design(alloc, request.seed, shape_of(request))?;
    let settings = settings_of(request);
    let routed = route_design(rt, alloc, design, grounds.as_slice(), &settings, gate)?;
    judge_texts(rt, alloc, &routed, grounds.as_slice())?;
    Ok(routed)
}

/// A routed design of which the judge accepts the texts.
#[derive(Drop)]
struct AcceptedDesign {
    routed: RoutedDesign,
}

impl Said for AcceptedDesign {
    ghost may = { λ _. Unit {0} };

    ghost text = { λ d. trial_text d.routed.rounded d.routed.rounds d.routed.cert };

    fn put<D: Desk>(&self, pen: &mut Pen<'_, D>) {
        put_report(
            pen,
            self.routed.rounded,
            self.routed.rounds,
            &self.routed.cert,
        );
        pen.put(b"judge yes\n");
    }
}
