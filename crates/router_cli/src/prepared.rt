//! From a name to a routed design.

ghost use Rattle.std.specs.Prelude.{◌≡◌, IfOk};
ghost use Rattle.grid_graph.specs.Grounds.{AreGrounds};
ghost use Rattle.ispd_reader.specs.Designs.{IsDesignOfText};
ghost use Rattle.routing_stages.specs.Settings.{AreSettings};
ghost use Rattle.router_cli.specs.Headline.{IsRoutedDesign};
ghost use Rattle.command_runs.specs.Sources.{HasBytes, design_source};
ghost use Rattle.command_runs.specs.Steps.{ReadsSources};

use crate::certificate::certificate;
use crate::routed_design::RoutedDesign;
use command_runs::{GroundedDesign, Refusal, read_grounded};
use gr_desk::Desk;
use grid_base::NoMemory;
use grid_graph::{Design, Ground};
use ripup_repair::repair;
use rounding_pick::round;
use routing_stages::{Gate, Settings};
use sharing_phases::share;
use std::alloc::Global;
use std::thread::Threads;

/// Reads the design under the name, and routes it.
pub(crate) fn prepare<R: Threads + Sync, D: Desk, G: Gate>(
    rt: &R,
    alloc: Global,
    name: &str,
    settings: &Settings,
    desk: &mut D,
    gate: &G,
) -> Result<RoutedDesign, Refusal>
    requires settings { AreSettings settings.now }
    ensures routed { IfOk result (IsRoutedDesign settings.now) }
    ensures named { IfOk result (λ r. HasBytes (D.told desk.old).files name.now (λ bytes. IsDesignOfText bytes r.design)) }
    ensures reads { ReadsSources (design_source name.now) (D.told desk.old) (D.told desk.new) result }
{
    let GroundedDesign { design, grounds } = read_grounded(alloc, desk, name)?;
    Ok(route_design(rt, alloc, design, grounds.as_slice(), settings, gate)?)
}

/// The design with its routes: each net keeps its set of the phase that is picked for it, and rounds of repair replace some.
pub(crate) fn route_design<R: Threads + Sync, G: Gate>(
    rt: &R,
    alloc: Global,
    design: Design,
    grounds: &[Ground],
    settings: &Settings,
    gate: &G,
) -> Result<RoutedDesign, NoMemory>
    requires grounds { AreGrounds design.grid design.nets grounds.now }
    requires settings { AreSettings settings.now }
    ensures routed { IfOk result (IsRoutedDesign settings.now) }
    ensures design { IfOk result (λ r. r.design ≡ design) }
{
    let shared = share(rt, alloc, &design, grounds, settings, gate)?;
    let chosen = round(&design, shared, settings.seed);
    let routed = repair(rt, alloc, &design, grounds, chosen, settings, gate)?;
    let cert = certificate(
        rt,
        alloc,
        &design,
        grounds,
        routed.trees.list(),
        routed.prices.as_slice(),
        settings.budget,
    )?;
    Ok(RoutedDesign {
        design,
        trees: routed.trees,
        prices: routed.prices,
        rounded: routed.rounded,
        rounds: routed.rounds,
        cert,
    })
}
