//! Negotiation: nets on overfull edges are rerouted at prices that rise, round after round.

ghost use Rattle.std.specs.Prelude.{◌≡◌, ◌≤◌, ◌<◌, ◌+◌, ◌-◌, ◌^◌, ◌⊎◌, if◌then◌else◌, [], IfOk, length, ltb, min, slice_index, slice_set};
ghost use Rattle.grid_graph.specs.Grounds.{AreGrounds};
ghost use Rattle.routing_state.specs.Best.{best_of, IsReroutingOf};
ghost use Rattle.routing_state.specs.States.{IsStateOf, totals_in, trees_of};
ghost use Rattle.routing_state.specs.Totals.{IsBetter, IsNoWorse};
ghost use Rattle.negotiation.specs.Due.{IsOverfullNet};
ghost use Rattle.negotiation.specs.Limits.{patience};
ghost use Rattle.negotiation.specs.Margins.{wider};
ghost use Rattle.negotiation.specs.Offers.{with_all_found, with_found};
ghost use Rattle.negotiation.specs.Searches.{AreFound, ArePlaces, IsFoundFor};
ghost use Rattle.negotiation.specs.Steps.{IsImproved, KeepsBest};
ghost use Rattle.negotiation.specs.Tools.{AreToolsFor};

use crate::batches::{next_batch, overfull_nets};
use crate::drawn::shuffle;
use crate::due::Due;
use crate::overfull::holds_overfull;
use crate::tools::Tools;
use grid_base::NoMemory;
use grid_graph::{Design, Ground};
use net_search::Stage;
use routing_state::{Rerouting, RoutingState};
use std::alloc::Global;
use std::thread::Threads;
use tree_set::Tree;

/// After so many rounds in a row in which the least overflow didn't fall no more follow.
const PATIENCE: u32 = 30;

/// Runs rounds until no overflow is left, all that were asked for are done, or patience ends. Answers the best state and how many
/// rounds there were.
pub(crate) fn negotiate<R: Threads + Sync>(
    rt: &R,
    alloc: Global,
    design: &Design,
    grounds: &[Ground],
    state: RoutingState,
    tools: &mut Tools,
    rounds: u32,
    seed: u64,
) -> Result<(RoutingState, u32), NoMemory>
    requires tools { AreToolsFor design.now tools.old }
    requires grounds { AreGrounds design.now.grid design.now.nets grounds.now }
    requires state { IsStateOf design.now state }
    ensures improved { IfOk result (λ r. IsImproved design.now state r.0) }
    ensures rounds { IfOk result (λ r. r.1 ≤ rounds) }
    ensures enough { IfOk result (λ r. r.1 < rounds → (patience ≤ r.1) ⊎ ((totals_in r.0).overflow ≡ 0)) }
    ensures idle { IfOk result (λ r. r.1 ≡ 0 → trees_of r.0 ≡ trees_of state) }
    ensures tools { IfOk result (λ _. AreToolsFor design.now tools.new) }
{
    let mut rerouting = Rerouting::of(alloc, state)?;
    let mut stale = 0;
    let mut done = 0;
    'rounds: while done < rounds && stale < PATIENCE && rerouting.state().totals().overflow > 0 {
        run_round(
            rt,
            alloc,
            design,
            grounds,
            &mut rerouting,
            tools,
            seed,
            done,
        )?;
        stale = keep_best(design, &mut rerouting, stale);
        done += 1;
    }
    Ok((rerouting.back(design), done))
}

/// What is now is the best where it is better. Answers for how many rounds the best has had the same overflow: a little less
/// wirelength is no reason for more rounds, since descent gains far more.
fn keep_best(design: &Design, rerouting: &mut Rerouting, stale: u32) -> u32
    requires of { IsReroutingOf design.now rerouting.old }
    ensures of { IsReroutingOf design.now rerouting.new }
    ensures state { rerouting.new.state ≡ rerouting.old.state }
    ensures best { (best_of rerouting.new ≡ trees_of rerouting.old.state) ⊎ (best_of rerouting.new ≡ best_of rerouting.old) }
    ensures no_worse { IsNoWorse rerouting.new.best rerouting.old.best }
    ensures better { IsBetter (totals_in rerouting.old.state) rerouting.old.best → (best_of rerouting.new ≡ trees_of rerouting.old.state) × (rerouting.new.best ≡ totals_in rerouting.old.state) }
    ensures same { ¬ IsBetter (totals_in rerouting.old.state) rerouting.old.best → rerouting.new ≡ rerouting.old }
    ensures low { rerouting.new.best.overflow ≤ (totals_in rerouting.new.state).overflow }
    ensures stale { result ≡ (if ltb rerouting.new.best.overflow rerouting.old.best.overflow then 0 else min (stale + 1) (2 ^ 32 - 1)) }
{
    let before = rerouting.best().overflow;
    if rerouting.keep_if_better() {
        return stale_after(before, rerouting.best().overflow, stale);
    }
    stale.saturating_add(1)
}

/// For how many rounds the best has had the same overflow, after one that made it better.
fn stale_after(before: u64, now: u64, stale: u32) -> u32
    ensures { result ≡ (if ltb now before then 0 else min (stale + 1) (2 ^ 32 - 1)) }
{
    if now < before {
        0
    } else {
        stale.saturating_add(1)
    }
}

/// One round: prices follow the rooms, and the nets on overfull edges are rerouted in a drawn order.
fn run_round<R: Threads + Sync>(
    rt: &R,
    alloc: Global,
    design: &Design,
    grounds: &[Ground],
    rerouting: &mut Rerouting,
    tools: &mut Tools,
    seed: u64,
    round: u32,
) -> Result<(), NoMemory>
    requires tools { AreToolsFor design.now tools.old }
    requires grounds { AreGrounds design.now.grid design.now.nets grounds.now }
    requires of { IsReroutingOf design.now rerouting.old }
    ensures kept { IfOk result (λ _. KeepsBest design.now rerouting.old rerouting.new) }
    ensures tools { IfOk result (λ _. AreToolsFor design.now tools.new) }
{
    let now = rerouting.state();
    tools.go_on(design, now)?;
    let mut order = overfull_nets(alloc, design, now)?;
    shuffle(&mut order, seed, u64::from(round));
    reroute_due(rt, alloc, design, grounds, rerouting, tools, &order)
}

/// Batch after batch of the nets that still hold an overfull edge get the sets that are found for them.
fn reroute_due<R: Threads + Sync>(
    rt: &R,
    alloc: Global,
    design: &Design,
    grounds: &[Ground],
    rerouting: &mut Rerouting,
    tools: &mut Tools,
    order: &[u32],
) -> Result<(), NoMemory>
    requires tools { AreToolsFor design.now tools.old }
    requires grounds { AreGrounds design.now.grid design.now.nets grounds.now }
    requires of { IsReroutingOf design.now rerouting.old }
    requires order { ArePlaces design.now order.now }
    ensures kept { IfOk result (λ _. KeepsBest design.now rerouting.old rerouting.new) }
    ensures tools { IfOk result (λ _. AreToolsFor design.now tools.new) }
{
    let mut batch = Vec::new(alloc);
    let mut at = 0;
    'batches: while at < order.len() {
        let now = rerouting.state();
        at = next_batch(design, now, tools, order, at, Due::Overfull, &mut batch)?;
        let found = tools.search(rt, alloc, design, grounds, now, Stage::Negotiation, &batch)?;
        put_found(design, rerouting, tools, &batch, found);
    }
    Ok(())
}

/// The nets of a batch get what was found for them, one after another.
fn put_found(
    design: &Design,
    rerouting: &mut Rerouting,
    tools: &mut Tools,
    nets: &[u32],
    mut found: Vec<Option<Tree>>,
)
    requires tools { AreToolsFor design.now tools.old }
    requires of { IsReroutingOf design.now rerouting.old }
    requires nets { ArePlaces design.now nets.now }
    requires found { AreFound design.now nets.now found.items }
    ensures kept { KeepsBest design.now rerouting.old rerouting.new }
    ensures sets { trees_of rerouting.new.state ≡ with_all_found (trees_of rerouting.old.state) nets.now found.items }
    ensures tools { AreToolsFor design.now tools.new }
{
    for i in 0..nets.len() {
        let net = nets[i] as usize;
        put_set(design, rerouting, net, found[i].take());
        widen_if_overfull(design, rerouting.state(), tools, net);
    }
}

/// A net gets what was found for it; where nothing was, it keeps its set.
fn put_set(design: &Design, rerouting: &mut Rerouting, net: usize, found: Option<Tree>)
    requires of { IsReroutingOf design.now rerouting.old }
    requires net { net < length design.now.nets }
    requires found { IsFoundFor design.now net found }
    ensures kept { KeepsBest design.now rerouting.old rerouting.new }
    ensures sets { trees_of rerouting.new.state ≡ with_found (trees_of rerouting.old.state) net found }
{
    if let Some(tree) = found {
        rerouting.exchange(design, net, tree);
    }
}

/// A net that still holds an overfull edge may look further.
fn widen_if_overfull(design: &Design, state: &RoutingState, tools: &mut Tools, net: usize)
    requires tools { AreToolsFor design.now tools.old }
    requires state { IsStateOf design.now state.now }
    requires net { net < length design.now.nets }
    ensures tools { AreToolsFor design.now tools.new }
    ensures margin { IsOverfullNet design.now state.now net → tools.new.margins.items ≡ slice_set tools.old.margins.items net (wider (slice_index tools.old.margins.items net)) }
    ensures same { ¬ IsOverfullNet design.now state.now net → tools.new ≡ tools.old }
{
    if holds_overfull(design, state, net) {
        tools.widen(design, net);
    }
}
