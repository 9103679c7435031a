//! Descent: nets are rerouted, and keep their new sets unless these are worse.

ghost use Rattle.std.specs.Prelude.{◌≡◌, ◌<◌, ◌-◌, ◌/◌, ◌↔◌, ◌⊎◌, IfOk, IsTrue, length};
ghost use Rattle.grid_graph.specs.Grounds.{AreGrounds};
ghost use Rattle.routing_state.specs.States.{IsStateOf};
ghost use Rattle.negotiation.specs.Offers.{IsOffered};
ghost use Rattle.negotiation.specs.Searches.{AreFound, ArePlaces, IsFoundFor};
ghost use Rattle.negotiation.specs.Steps.{IsImproved};
ghost use Rattle.negotiation.specs.Tools.{AreToolsFor};

use crate::batches::next_batch;
use crate::due::Due;
use crate::tools::Tools;
use grid_base::NoMemory;
use grid_graph::{Design, Ground};
use net_search::Stage;
use routing_state::{RoutingState, Totals};
use std::alloc::Global;
use std::thread::Threads;
use tree_set::Tree;

/// At most so many passes over the nets on overfull edges alone.
const QUICK_PASSES: u32 = 6;
/// A pass is worth another one where it gains one part of so many of the wirelength, or overflow.
const GAIN_PARTS: u64 = 500;

/// Quick passes over the nets of the order on overfull edges, and then at most so many over all of them. No totals are worse than those before.
pub(crate) fn descend<R: Threads + Sync>(
    rt: &R,
    alloc: Global,
    design: &Design,
    grounds: &[Ground],
    state: &mut RoutingState,
    tools: &mut Tools,
    order: &[u32],
    passes: u32,
) -> Result<(), NoMemory>
    requires tools { AreToolsFor design.now tools.old }
    requires grounds { AreGrounds design.now.grid design.now.nets grounds.now }
    requires state { IsStateOf design.now state.old }
    requires order { ArePlaces design.now order.now }
    ensures improved { IfOk result (λ _. IsImproved design.now state.old state.new) }
    ensures idle { passes ≡ 0 → IfOk result (λ _. state.new ≡ state.old) }
    ensures tools { IfOk result (λ _. AreToolsFor design.now tools.new) }
{
    let quick = if passes > 0 { QUICK_PASSES } else { 0 };
    run_passes(
        rt,
        alloc,
        design,
        grounds,
        state,
        tools,
        order,
        quick,
        Due::Overfull,
    )?;
    run_passes(
        rt,
        alloc,
        design,
        grounds,
        state,
        tools,
        order,
        passes,
        Due::Improvable,
    )?;
    Ok(())
}

/// At most so many passes over the nets of the order that are due, while they gain something.
pub(crate) fn run_passes<R: Threads + Sync>(
    rt: &R,
    alloc: Global,
    design: &Design,
    grounds: &[Ground],
    state: &mut RoutingState,
    tools: &mut Tools,
    order: &[u32],
    passes: u32,
    due: Due,
) -> Result<(), NoMemory>
    requires tools { AreToolsFor design.now tools.old }
    requires grounds { AreGrounds design.now.grid design.now.nets grounds.now }
    requires state { IsStateOf design.now state.old }
    requires order { ArePlaces design.now order.now }
    ensures improved { IfOk result (λ _. IsImproved design.now state.old state.new) }
    ensures idle { passes ≡ 0 → IfOk result (λ _. state.new ≡ state.old) }
    ensures tools { IfOk result (λ _. AreToolsFor design.now tools.new) }
{
    for _pass in 0..passes {
        let before = state.totals();
        tools.pass_on();
        run_pass(rt, alloc, design, grounds, state, tools, order, due)?;
        if !is_worth_another(before, state.totals()) {
            return Ok(());
        }
    }
    Ok(())
}

/// Whether a pass gained so much that another one may be worth its time.
fn is_worth_another(before: Totals, after: Totals) -> bool
    ensures { IsTrue result ↔ (after.overflow < before.overflow) ⊎ (before.wirelength / 500 < before.wirelength - after.wirelength) }
{
    let gained = before.wirelength.saturating_sub(after.wirelength);
    after.overflow < before.overflow || gained > before.wirelength / GAIN_PARTS
}

/// One pass: batch after batch of the nets that are due are rerouted.
fn run_pass<R: Threads + Sync>(
    rt: &R,
    alloc: Global,
    design: &Design,
    grounds: &[Ground],
    state: &mut RoutingState,
    tools: &mut Tools,
    order: &[u32],
    due: Due,
) -> Result<(), NoMemory>
    requires tools { AreToolsFor design.now tools.old }
    requires grounds { AreGrounds design.now.grid design.now.nets grounds.now }
    requires state { IsStateOf design.now state.old }
    requires order { ArePlaces design.now order.now }
    ensures improved { IfOk result (λ _. IsImproved design.now state.old state.new) }
    ensures tools { IfOk result (λ _. AreToolsFor design.now tools.new) }
{
    let mut batch = Vec::new(alloc);
    let mut at = 0;
    'batches: while at < order.len() {
        at = next_batch(design, state, tools, order, at, due, &mut batch)?;
        let found = tools.search(rt, alloc, design, grounds, state, Stage::Descent, &batch)?;
        offer_found(design, state, &batch, found);
    }
    Ok(())
}

/// The nets of a batch are offered what was found for them, one after another.
fn offer_found(
    design: &Design,
    state: &mut RoutingState,
    nets: &[u32],
    mut found: Vec<Option<Tree>>,
)
    requires state { IsStateOf design.now state.old }
    requires nets { ArePlaces design.now nets.now }
    requires found { AreFound design.now nets.now found.items }
    ensures improved { IsImproved design.now state.old state.new }
{
    for i in 0..nets.len() {
        offer_set(design, state, nets[i] as usize, found[i].take());
    }
}

/// A net gets what was found for it, unless the totals are worse with it.
fn offer_set(design: &Design, state: &mut RoutingState, net: usize, found: Option<Tree>)
    requires state { IsStateOf design.now state.old }
    requires net { net < length design.now.nets }
    requires found { IsFoundFor design.now net found }
    ensures improved { IsImproved design.now state.old state.new }
    ensures offered { IsOffered design.now net found state.old state.new }
{
    if let Some(tree) = found {
        state.exchange_unless_worse(design, net, tree);
    }
}
