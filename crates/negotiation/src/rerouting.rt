//! Rerouting as a whole.

ghost use Rattle.std.specs.Prelude.{◌≡◌, ◌≢◌, ◌⊎◌, [], IfOk};
ghost use Rattle.grid_graph.specs.Grounds.{AreGrounds};
ghost use Rattle.routing_state.specs.States.{IsStateOf, totals_in, trees_of};
ghost use Rattle.routing_state.specs.Totals.{IsNoWorse};
ghost use Rattle.negotiation.specs.Given.{AreGiven};
ghost use Rattle.negotiation.specs.Kept.{AreKeptBut};
ghost use Rattle.negotiation.specs.Rerouted.{IsRerouted};
ghost use Rattle.negotiation.specs.Searches.{ArePlaces};
ghost use Rattle.negotiation.specs.Settings.{AreRerouteSettings};
ghost use Rattle.negotiation.specs.Steps.{IsRenewed};
ghost use Rattle.negotiation.specs.Tools.{AreToolsFor};

use crate::descending::{descend, run_passes};
use crate::due::Due;
use crate::negotiating::negotiate;
use crate::order::all_short_first;
use crate::rerouted::Rerouted;
use crate::settings::RerouteSettings;
use crate::starting::start;
use crate::tools::Tools;
use grid_base::NoMemory;
use grid_graph::{Design, Ground};
use lists::Items;
use routing_state::RoutingState;
use std::alloc::Global;
use std::thread::Threads;
use tree_set::Tree;

/// Reroutes nets until their sets can't easily be made better. `given` has one set per net, and `missing` the places of the
/// nets that have none yet, whose set in `given` is empty. Want of memory is the only error.
///
/// Nets without a set get one; then the nets on overfull edges are rerouted in rounds at prices that rise; then the best sets of
/// these rounds are made shorter. All searches of a batch see the same, and what they find is put in by the order of the nets.
/// So the outcome depends on no number of workers.
pub fn reroute<R: Threads + Sync>(
    rt: &R,
    alloc: Global,
    design: &Design,
    grounds: &[Ground],
    given: Vec<Tree>,
    missing: &[u32],
    settings: &RerouteSettings,
) -> Result<Rerouted, NoMemory>
    requires grounds { AreGrounds design.now.grid design.now.nets grounds.now }
    requires given { AreGiven design.now given.items missing.now }
    requires settings { AreRerouteSettings settings.now }
    ensures { IfOk result (IsRerouted design.now given.items missing.now settings.now) }
{
    let mut tools = Tools::new(alloc, design, settings.workers)?;
    let order = all_short_first(alloc, tools.extents())?;
    let mut first = RoutingState::of(alloc, design, given)?;
    begin(
        rt,
        alloc,
        design,
        grounds,
        &mut first,
        &mut tools,
        &order,
        missing,
        settings.passes,
    )?;
    let (mut state, rounds) = negotiate(
        rt,
        alloc,
        design,
        grounds,
        first,
        &mut tools,
        settings.rounds,
        settings.seed,
    )?;
    descend(
        rt,
        alloc,
        design,
        grounds,
        &mut state,
        &mut tools,
        &order,
        settings.passes,
    )?;
    Ok(outcome(state, rounds))
}

/// Where nets have no set these get one; else passes of descent make the sets shorter, as long as each gains something: routes
/// that were not made to be short have much to gain before rounds of negotiation settle them.
fn begin<R: Threads + Sync>(
    rt: &R,
    alloc: Global,
    design: &Design,
    grounds: &[Ground],
    state: &mut RoutingState,
    tools: &mut Tools,
    order: &[u32],
    missing: &[u32],
    passes: u32,
) -> Result<(), NoMemory>
    requires tools { AreToolsFor design.now tools.old }
    requires grounds { AreGrounds design.now.grid design.now.nets grounds.now }
    requires state { IsStateOf design.now state.old }
    requires order { ArePlaces design.now order.now }
    requires missing { ArePlaces design.now missing.now }
    ensures renewed { IfOk result (λ _. IsRenewed design.now missing.now state.old state.new) }
    ensures kept { IfOk result (λ _. (passes ≡ 0) ⊎ (missing.now ≢ []) → AreKeptBut missing.now (trees_of state.old) (trees_of state.new)) }
    ensures no_worse { IfOk result (λ _. missing.now ≡ [] → IsNoWorse (totals_in state.new) (totals_in state.old)) }
    ensures tools { IfOk result (λ _. AreToolsFor design.now tools.new) }
{
    if missing.is_empty() {
        run_passes(
            rt,
            alloc,
            design,
            grounds,
            state,
            tools,
            order,
            passes,
            Due::Improvable,
        )?;
        return Ok(());
    }
    start(rt, alloc, design, grounds, state, tools, missing)?;
    Ok(())
}

/// The sets of a state with their totals.
fn outcome(state: RoutingState, rounds: u32) -> Rerouted
    ensures trees { result.trees ≡ trees_of state }
    ensures rounds { result.rounds ≡ rounds }
    ensures overflow { result.overflow ≡ (totals_in state).overflow }
    ensures wirelength { result.wirelength ≡ (totals_in state).wirelength }
{
    let totals = state.totals();
    Rerouted {
        trees: Items::of(state.into_trees()),
        rounds,
        overflow: totals.overflow,
        wirelength: totals.wirelength,
    }
}
