//! Repair of a chosen routing.

ghost use Rattle.std.specs.Prelude.{◌≡◌, IfOk};
ghost use Rattle.grid_base.specs.Numbers.{vertices};
ghost use Rattle.grid_graph.specs.Grids.{size_of};
ghost use Rattle.grid_graph.specs.Grounds.{AreGrounds};
ghost use Rattle.tree_set.specs.Loads.{load_list};
ghost use Rattle.tree_set.specs.Routings.{IsRouting};
ghost use Rattle.routing_stages.specs.Settings.{AreSettings, workers_in_use};
ghost use Rattle.routing_stages.specs.Whole.{IsWholeChosen};
ghost use Rattle.sharing_runs.specs.RepairRuns.{routing_overflow};
ghost use Rattle.ripup_repair.specs.RepairHistories.{IsRepaired};

use crate::left::Left;
use crate::overflow::overflow_of;
use crate::repaired::Repaired;
use crate::rounds::repair_rounds;
use crate::routing::Routing;
use grid_base::NoMemory;
use grid_graph::{Design, Ground};
use load_core::WHOLE_ALLOTMENT;
use routing_stages::{Chosen, Gate, Routed, Settings, Trees};
use std::alloc::Global;
use std::thread::Threads;

/// In each round, every net whose set holds an open edge with more load than capacity gets a new one, at prices of the
/// loads without its old one. This is rip-up and reroute. Rounds follow while there is overflow, and the first routing of
/// least overflow is the result.
///
/// The workers of a round run side by side; where a thread can't be started, the caller does its work. Want of memory of one
/// worker is answered when all have ended, and hands nothing of `chosen` back. A round copies no set but those that it
/// replaces.
pub fn repair<R: Threads + Sync, G: Gate>(
    rt: &R,
    alloc: Global,
    design: &Design,
    grounds: &[Ground],
    chosen: Chosen,
    settings: &Settings,
    gate: &G,
) -> Result<Routed, NoMemory>
    requires grounds { AreGrounds design.now.grid design.now.nets grounds.now }
    requires settings { AreSettings settings.now }
    requires whole { IsWholeChosen design.now chosen }
    ensures repaired { IfOk result (λ r. IsRepaired design.now
        (workers_in_use settings.now.workers (vertices (size_of design.now.grid))) settings.now chosen r) }
    ensures routing { IfOk result (λ r. IsRouting design.now.grid design.now.nets r.trees) }
    ensures rounded { IfOk result (λ r. r.rounded ≡ routing_overflow design.now chosen.trees) }
    ensures loads { IfOk result (λ r. r.loads.items ≡ load_list design.now.grid design.now.nets r.trees) }
    ensures table { IfOk result (λ r. r.table ≡ chosen.table) }
    ensures prices { IfOk result (λ r. r.prices.items ≡ chosen.prices.items) }
{
    let Chosen {
        table,
        share,
        trees,
        loads,
        prices,
    } = chosen;
    // By this call, here and below, the proof knows that a share has an entry for each word.
    prove!(share.allotment() <= WHOLE_ALLOTMENT);
    let workers = settings.workers_in_use(design.grid.size());
    let rounded = overflow_of(design, &loads);
    let left = Left {
        workers,
        budget: settings.budget,
        rounds: settings.rounds,
        overflow: rounded,
        least: rounded,
    };
    let routing = Routing {
        table,
        share,
        trees: trees.into_list(),
        loads,
    };
    let done = repair_rounds(rt, alloc, design, grounds, gate, routing, left)?;
    let Repaired {
        routing,
        rounds,
        ..
    } = done;
    prove!(routing.share.allotment() <= WHOLE_ALLOTMENT);
    Ok(Routed {
        table: routing.table,
        share: routing.share,
        trees: Trees::of(routing.trees),
        loads: routing.loads,
        prices,
        rounded,
        rounds,
    })
}
