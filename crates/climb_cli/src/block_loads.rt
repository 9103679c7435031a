//! The loads of routes.

ghost use Rattle.std.specs.Prelude.{◌≡◌, IfOk};
ghost use Rattle.grid_graph.specs.Grounds.{AreGrounds};
ghost use Rattle.route_judge.specs.Limits.{AreBlocks};
ghost use Rattle.route_judge.specs.Orders.{AreRoutes};
ghost use Rattle.climb_cli.specs.ClimbedCerts.{AreLoadsOfBlocks, IsWirelengthOfBlocks};

use grid_base::NoMemory;
use grid_graph::{Design, Ground};
use route_judge::loads_of;
use route_text::BlockList;
use std::alloc::Global;

/// The loads of routes with this wirelength: of each edge number, and then the wirelength.
pub(crate) fn loads_of_blocks(
    alloc: Global,
    design: &Design,
    grounds: &[Ground],
    blocks: &BlockList,
    wirelength: u64,
) -> Result<Vec<u64>, NoMemory>
    requires grounds { AreGrounds design.now.grid design.now.nets grounds.now }
    requires blocks { AreBlocks blocks.now }
    requires routes { AreRoutes design.now blocks.now }
    requires wirelength { IsWirelengthOfBlocks design.now blocks.now wirelength }
    ensures { IfOk result (λ loads. AreLoadsOfBlocks design.now blocks.now loads.items) }
{
    let mut loads = loads_of(alloc, design, grounds, blocks)?;
    loads.push(wirelength)?;
    Ok(loads)
}
