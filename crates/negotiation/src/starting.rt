//! The start: nets without a set get one.

ghost use Rattle.std.specs.Prelude.{◌≡◌, ◌<◌, ◌∷◌, [], IfOk, length, slice_set};
ghost use Rattle.grid_base.specs.Lists.{At};
ghost use Rattle.grid_graph.specs.declared.net_spec.NetSpec.{NetSpec};
ghost use Rattle.grid_graph.specs.Grounds.{AreGrounds};
ghost use Rattle.tree_set.specs.Routings.{IsRoute};
ghost use Rattle.routing_state.specs.States.{IsStateOf, trees_of};
ghost use Rattle.negotiation.specs.Kept.{AreKeptBut};
ghost use Rattle.negotiation.specs.Searches.{AreFound, ArePlaces, IsFoundFor};
ghost use Rattle.negotiation.specs.Steps.{IsRenewed};
ghost use Rattle.negotiation.specs.Tools.{AreToolsFor};

use crate::batch_sizes::pass_batch;
use crate::order::short_first;
use crate::spanning::spanning_set;
use crate::tools::Tools;
use grid_base::NoMemory;
use grid_graph::{Design, Ground};
use net_search::Stage;
use routing_state::RoutingState;
use std::alloc::Global;
use std::thread::Threads;
use tree_set::Tree;

/// The nets at the missing places get routes, short nets first, batch after batch.
pub(crate) fn start<R: Threads + Sync>(
    rt: &R,
    alloc: Global,
    design: &Design,
    grounds: &[Ground],
    state: &mut RoutingState,
    tools: &mut Tools,
    missing: &[u32],
) -> Result<(), NoMemory>
    requires tools { AreToolsFor design.now tools.old }
    requires grounds { AreGrounds design.now.grid design.now.nets grounds.now }
    requires state { IsStateOf design.now state.old }
    requires missing { ArePlaces design.now missing.now }
    ensures renewed { IfOk result (λ _. IsRenewed design.now missing.now state.old state.new) }
    ensures kept { IfOk result (λ _. AreKeptBut missing.now (trees_of state.old) (trees_of state.new)) }
    ensures tools { IfOk result (λ _. AreToolsFor design.now tools.new) }
{
    let order = short_first(alloc, tools.extents(), missing)?;
    let size = pass_batch(design.nets.list().len());
    let mut at = 0;
    'batches: while at < order.len() {
        let end = at.saturating_add(size).min(order.len());
        let batch = &order[at..end];
        let found = tools.search(rt, alloc, design, grounds, state, Stage::Start, batch)?;
        put_routes(alloc, design, grounds, state, batch, found)?;
        at = end;
    }
    Ok(())
}

/// The nets of a batch get routes, one after another.
fn put_routes(
    alloc: Global,
    design: &Design,
    grounds: &[Ground],
    state: &mut RoutingState,
    nets: &[u32],
    mut found: Vec<Option<Tree>>,
) -> Result<(), NoMemory>
    requires grounds { AreGrounds design.now.grid design.now.nets grounds.now }
    requires state { IsStateOf design.now state.old }
    requires nets { ArePlaces design.now nets.now }
    requires found { AreFound design.now nets.now found.items }
    ensures renewed { IfOk result (λ _. IsRenewed design.now nets.now state.old state.new) }
    ensures kept { IfOk result (λ _. AreKeptBut nets.now (trees_of state.old) (trees_of state.new)) }
{
    for i in 0..nets.len() {
        let net = nets[i] as usize;
        let tree = route_of(alloc, design, grounds, net, found[i].take())?;
        put_route(design, state, net, tree);
    }
    Ok(())
}

/// What was found for a net, and where nothing was, another route of it.
fn route_of(
    alloc: Global,
    design: &Design,
    grounds: &[Ground],
    net: usize,
    found: Option<Tree>,
) -> Result<Tree, NoMemory>
    requires grounds { AreGrounds design.now.grid design.now.nets grounds.now }
    requires net { net < length design.now.nets }
    requires found { IsFoundFor design.now net found }
    ensures route { (n : NetSpec) → At design.now.nets net n → IfOk result (IsRoute design.now.grid n) }
{
    match found {
        Some(tree) => Ok(tree),
        None => spanning_set(alloc, design, grounds, net),
    }
}

/// A net gets a route.
fn put_route(design: &Design, state: &mut RoutingState, net: usize, tree: Tree)
    requires state { IsStateOf design.now state.old }
    requires net { net < length design.now.nets }
    requires route { (n : NetSpec) → At design.now.nets net n → IsRoute design.now.grid n tree }
    ensures renewed { IsRenewed design.now (net ∷ []) state.old state.new }
    ensures set { trees_of state.new ≡ slice_set (trees_of state.old) net tree }
{
    state.exchange(design, net, tree);
}
