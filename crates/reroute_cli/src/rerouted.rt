//! New routes of a design, by negotiation.

ghost use Rattle.std.specs.Prelude.{◌≡◌, IfOk, List};
ghost use Rattle.grid_graph.specs.Grounds.{AreGrounds};
ghost use Rattle.negotiation.specs.Settings.{AreRerouteSettings};
ghost use Rattle.route_judge.specs.BlockSets.{AreBlockSets};
ghost use Rattle.route_text.specs.declared.block.Block.{Block};
ghost use Rattle.reroute_cli.specs.NewRoutes.{AreNewRoutes};

use crate::changes::changed_nets;
use crate::copies::copies_of;
use crate::marks::marked_count;
use crate::new_routes::NewRoutes;
use crate::reroute_report::RerouteReport;
use command_runs::GroundedDesign;
use grid_base::NoMemory;
use negotiation::{RerouteSettings, reroute};
use route_judge::{BlockSets, forced_count};
use std::alloc::Global;
use std::thread::Threads;
use tree_set::measure_of;

/// New routes from the sets that blocks give the nets of a design. A copy of these sets is kept, by which it is told afterwards which
/// nets got another set.
pub(crate) fn new_routes_of<R: Threads + Sync>(
    rt: &R,
    alloc: Global,
    grounded: GroundedDesign,
    given: BlockSets,
    settings: &RerouteSettings,
) -> Result<NewRoutes, NoMemory>
    requires grounds { AreGrounds grounded.design.grid grounded.design.nets grounded.grounds.items }
    requires given { (blocks : List Block) × AreBlockSets grounded.design blocks given.trees.items given.has_block.items given.missing.items }
    requires settings { AreRerouteSettings settings.now }
    ensures design { IfOk result (λ new. new.design ≡ grounded.design) }
    ensures new { (blocks : List Block) → AreBlockSets grounded.design blocks given.trees.items given.has_block.items given.missing.items
        → IfOk result (AreNewRoutes grounded.design grounded.grounds.items blocks settings.now) }
{
    let GroundedDesign { design, grounds } = grounded;
    let BlockSets {
        trees,
        has_block,
        missing,
    } = given;
    let before = measure_of(alloc, &design, trees.as_slice())?;
    let old = copies_of(alloc, trees.as_slice())?;
    let rerouted = reroute(
        rt,
        alloc,
        &design,
        grounds.as_slice(),
        trees,
        missing.as_slice(),
        settings,
    )?;
    let new = rerouted.trees.list();
    let measure = measure_of(alloc, &design, new)?;
    let changed = changed_nets(alloc, has_block.as_slice(), old.as_slice(), new)?;
    let report = RerouteReport {
        nets: design.nets.list().len() as u64,
        forced: forced_count(grounds.as_slice()),
        routed: missing.len() as u64,
        rerouted: marked_count(changed.as_slice()),
        rounds: rerouted.rounds,
        measure,
        given: before,
    };
    Ok(NewRoutes {
        design,
        rerouted,
        report,
    })
}
