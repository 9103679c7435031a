//! What comes of a design and of routes that were read.

ghost use Rattle.std.specs.Prelude.{◌≡◌, IfOk};
ghost use Rattle.grid_graph.specs.Grounds.{AreGrounds};
ghost use Rattle.negotiation.specs.Settings.{AreRerouteSettings};
ghost use Rattle.route_judge.specs.Limits.{AreBlocks};
ghost use Rattle.reroute_cli.specs.RerouteHeadline.{IsReroutedOr};

use crate::new_routes::NewRoutes;
use crate::rerouted::new_routes_of;
use grid_base::NoMemory;
use judge_cli::RoutedInput;
use negotiation::RerouteSettings;
use route_judge::{CheckedBlocks, Reason, sets_of_blocks};
use std::alloc::Global;
use std::thread::Threads;

/// What comes of them: new routes, or the judge's reason against the given ones.
#[derive(Drop)]
pub(crate) enum Outcome {
    Rerouted(NewRoutes),
    Objected(Reason),
}

/// What comes of a design and of blocks.
pub(crate) fn outcome_of<R: Threads + Sync>(
    rt: &R,
    alloc: Global,
    input: RoutedInput,
    settings: &RerouteSettings,
) -> Result<Outcome, NoMemory>
    requires grounds { AreGrounds input.grounded.design.grid input.grounded.design.nets input.grounded.grounds.items }
    requires blocks { AreBlocks input.blocks }
    requires settings { AreRerouteSettings settings.now }
    ensures { IfOk result (IsReroutedOr input.grounded.design input.grounded.grounds.items input.blocks settings.now) }
{
    let RoutedInput { grounded, blocks } = input;
    match sets_of_blocks(alloc, &grounded.design, &blocks)? {
        CheckedBlocks::Yes(given) => {
            let new = new_routes_of(rt, alloc, grounded, given, settings)?;
            Ok(Outcome::Rerouted(new))
        }
        CheckedBlocks::No(reason) => Ok(Outcome::Objected(reason)),
    }
}
