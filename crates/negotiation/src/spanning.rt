//! A set for a net that the growth found none for.

ghost use Rattle.std.specs.Prelude.{◌<◌, IfOk, length};
ghost use Rattle.grid_base.specs.Lists.{At};
ghost use Rattle.grid_graph.specs.declared.net_spec.NetSpec.{NetSpec};
ghost use Rattle.grid_graph.specs.Grounds.{AreGrounds};
ghost use Rattle.tree_set.specs.Routings.{IsRoute};

use grid_base::NoMemory;
use grid_graph::{Design, Ground};
use price_workers::{prices_without_loads, route_net};
use std::alloc::Global;
use steiner_exact::TreeLabels;
use tree_set::Tree;

/// How loads count in prices, of which there are none.
const SCALE: u32 = 1;

/// A route of the net at this place that is light where no edge has a load. It takes tables of its own, since it is hardly ever
/// asked for.
pub(crate) fn spanning_set(
    alloc: Global,
    design: &Design,
    grounds: &[Ground],
    net: usize,
) -> Result<Tree, NoMemory>
    requires grounds { AreGrounds design.now.grid design.now.nets grounds.now }
    requires net { net < length design.now.nets }
    ensures route { (n : NetSpec) → At design.now.nets net n → IfOk result (IsRoute design.now.grid n) }
{
    let mut kept = prices_without_loads(alloc, &design.grid, SCALE, None)?;
    let mut labels = TreeLabels::new(alloc, design.grid.size())?;
    route_net(
        alloc,
        &mut kept,
        &design.nets.list()[net],
        grounds[net],
        &mut labels,
    )
}
