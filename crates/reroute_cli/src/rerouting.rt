//! What the program does where its words are a command.

ghost use Rattle.std.specs.Prelude.{◌≡◌, [], ◌∷◌};
ghost use Rattle.command_runs.specs.Saying.{Leaves};
ghost use Rattle.command_words.specs.RerouteLine.{HasRerouteRanges, reroute_task_of};
ghost use Rattle.gr_desk.specs.declared.port.Port.TheVariants.{RoutesOut};
ghost use Rattle.negotiation.specs.Settings.{AreRerouteSettings};
ghost use Rattle.route_judge.specs.NetSets.{AreJoining};
ghost use Rattle.reroute_cli.specs.declared.outcome.Outcome.TheVariants.{Rerouted};
ghost use Rattle.reroute_cli.specs.RerouteHeadline.{rerouted_outcome, reroute_settings_of};
ghost use Rattle.reroute_cli.specs.RerouteRun.{IsRerouteRun};

use crate::given::read_given;
use crate::new_routes::NewRoutes;
use crate::outcome::{Outcome, outcome_of};
use command_runs::{Refusal, make_routes, refuse, say, say_unwritten};
use command_words::RerouteRequest;
use gr_desk::{Desk, Failed};
use grid_base::NoMemory;
use judge_cli::Answer;
use negotiation::RerouteSettings;
use std::alloc::Global;
use std::thread::Threads;

/// The settings that a command asks for.
fn settings_of(request: &RerouteRequest<'_>) -> RerouteSettings
    requires { HasRerouteRanges request.now }
    ensures value { result ≡ reroute_settings_of (reroute_task_of request.now) }
    ensures limits { AreRerouteSettings result }
{
    RerouteSettings {
        rounds: request.rounds,
        passes: request.passes,
        workers: request.workers,
        seed: request.seed,
    }
}

/// Reroutes the nets of the design under the input's name, writes the new routes, reports what became of the nets, and answers the
/// status.
pub(crate) fn rerouting<R: Threads + Sync, D: Desk>(
    rt: &R,
    alloc: Global,
    request: &RerouteRequest<'_>,
    desk: &mut D,
) -> u8
    requires { HasRerouteRanges request.now }
    ensures { IsRerouteRun (reroute_task_of request.now) (D.told desk.old) (D.told desk.new) result }
{
    let settings = settings_of(request);
    match read_given(alloc, desk, request) {
        Ok(read) => match outcome_of(rt, alloc, read, &settings) {
            Ok(Outcome::Rerouted(new)) => finish(desk, request.output, &new),
            Ok(Outcome::Objected(reason)) => say(desk, &Answer::No(reason), true),
            Err(NoMemory) => refuse(desk, Refusal::NoMemory),
        },
        Err(refusal) => refuse(desk, refusal),
    }
}

/// Makes the file of the new routes and writes the report, and answers the status.
fn finish<D: Desk>(desk: &mut D, output: &str, new: &NewRoutes) -> u8
    requires { AreJoining new.now.design new.now.rerouted.trees }
    ensures { Leaves (record { port = RoutesOut; name = output.now } ∷ []) (rerouted_outcome (Rerouted new.now)) (D.told desk.old) (D.told desk.new) result }
{
    let trees = new.rerouted.trees.list();
    match make_routes(desk, output, &new.design, trees) {
        Ok(()) => say(desk, new, false),
        Err(Failed) => say_unwritten(desk),
    }
}
