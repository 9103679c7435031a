//! The command `route`.

ghost use Rattle.std.specs.Prelude.{◌≡◌, [], ◌∷◌};
ghost use Rattle.cert_text.specs.CertText.{cert_text};
ghost use Rattle.gr_desk.specs.declared.port.Port.TheVariants.{CertOut};
ghost use Rattle.command_runs.specs.Saying.{Leaves};
ghost use Rattle.routing_stages.specs.Settings.{AreSettings};
ghost use Rattle.router_cli.specs.Headline.{IsRoutedDesign, routed_outcome};
ghost use Rattle.router_cli.specs.RouteRun.{IsRouteRun, route_files};
ghost use Rattle.router_cli.specs.Tasks.{settings_of, task_of};

use crate::outputs::make_routes;
use crate::prepared::prepare;
use crate::routed_design::RoutedDesign;
use command_runs::{make_cert, refuse, say, say_unwritten};
use command_words::RouteRequest;
use gr_desk::{Desk, Failed};
use routing_stages::{Gate, Settings};
use std::alloc::Global;
use std::thread::Threads;

/// The settings that a command asks for.
fn settings_of(request: &RouteRequest<'_>) -> Settings
    ensures { result ≡ settings_of request.now }
{
    Settings {
        workers: request.workers,
        phases: request.phases,
        rounds: request.rounds,
        seed: request.seed,
        budget: request.budget,
    }
}

/// Routes the design under the input's name, writes the routes and their certificate, reports what it says, and answers the status.
pub(crate) fn route<R: Threads + Sync, D: Desk, G: Gate>(
    rt: &R,
    alloc: Global,
    request: &RouteRequest<'_>,
    desk: &mut D,
    gate: &G,
) -> u8
    requires settings { AreSettings (settings_of request.now) }
    ensures { IsRouteRun (task_of request.now) (D.told desk.old) (D.told desk.new) result }
{
    let settings = settings_of(request);
    match prepare(rt, alloc, request.input, &settings, desk, gate) {
        Ok(routed) => finish(desk, request, &routed),
        Err(refusal) => refuse(desk, refusal),
    }
}

/// Makes the file of the routes, and then what follows it, and answers the status.
fn finish<D: Desk>(desk: &mut D, request: &RouteRequest<'_>, routed: &RoutedDesign) -> u8
    requires routed { IsRoutedDesign (settings_of request.now) routed.now }
    ensures { Leaves (route_files (task_of request.now)) (routed_outcome routed.now)
        (D.told desk.old) (D.told desk.new) result }
{
    match make_routes(desk, request.routes, &routed.design, routed.trees.list()) {
        Ok(()) => certify(desk, request, routed),
        Err(Failed) => say_unwritten(desk),
    }
}

/// Makes the file of the certificate, and then writes the report, and answers the status.
fn certify<D: Desk>(desk: &mut D, request: &RouteRequest<'_>, routed: &RoutedDesign) -> u8
    ensures { Leaves (record { port = CertOut; name = request.now.certificate.now } ∷ [])
        (record (routed_outcome routed.now) { texts = cert_text routed.now.cert ∷ [] })
        (D.told desk.old) (D.told desk.new) result }
{
    match make_cert(desk, request.certificate, &routed.cert) {
        Ok(()) => say(desk, routed, false),
        Err(Failed) => say_unwritten(desk),
    }
}
