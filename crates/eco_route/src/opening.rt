//! What an eco keeps beside a design and its sets, as it is opened.

ghost use Rattle.std.specs.Prelude.{◌≡◌, ◌≤◌, ℕ, All, IfOk, slice_index};
ghost use Rattle.grid_graph.specs.Limits.{max_pins};
ghost use Rattle.tree_set.specs.Loads.{load_on};
ghost use Rattle.tree_set.specs.Order.{IsRising};
ghost use Rattle.eco_route.specs.EcoStates.{AreSetsOf};
ghost use Rattle.eco_route.specs.EditRefusals.{terminals_of};
ghost use Rattle.eco_route.specs.Routers.{IsRouterOn, router_loads};

use crate::net_router::NetRouter;
use grid_base::NoMemory;
use grid_graph::{Design, NetSpec};
use std::alloc::Global;
use tree_set::Tree;

/// How many terminals these nets have.
pub(crate) fn count_terminals(nets: &[NetSpec]) -> usize
    requires { terminals_of nets.now ≤ max_pins }
    ensures { result ≡ terminals_of nets.now }
{
    let mut terminals = 0;
    for net in nets {
        terminals += net.terminals.list().len();
    }
    terminals
}

/// A router with the load of all sets.
pub(crate) fn loaded_router(
    alloc: Global,
    design: &Design,
    trees: &[Tree],
) -> Result<NetRouter, NoMemory>
    requires sets { AreSetsOf design.now.grid design.now.nets trees.now }
    ensures router { IfOk result (IsRouterOn design.now.grid) }
    ensures rising { IfOk result (λ _. All IsRising trees.now) }
    ensures loads { IfOk result (λ made. (r : ℕ) → slice_index (router_loads made) r ≡ load_on design.now.grid design.now.nets trees.now r) }
{
    let mut router = NetRouter::of(alloc, &design.grid)?;
    for net in 0..trees.len() {
        let width = design.nets.list()[net].width;
        let tree = rising(&trees[net]);
        router.notice(alloc, &design.grid, width, tree);
    }
    Ok(router)
}

/// The set, of which it is now known that its pieces rise.
fn rising<'a>(tree: &'a Tree) -> &'a Tree
    ensures same { result.now ≡ tree.entry.now }
    ensures rising { IsRising result.now }
{
    tree.pieces();
    tree
}
