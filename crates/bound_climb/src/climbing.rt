//! A climb.

ghost use Rattle.std.specs.Prelude.{◌≡◌, ◌+◌, ◌<◌, ◌≤◌, [], IfOk, IfSome, OnOk, length};
ghost use Rattle.edge_prices.specs.Budgets.{most_of, IsWithinLimits};
ghost use Rattle.edge_prices.specs.KeptLists.{grid_of, loads_of, vector_of, IsRenewed};
ghost use Rattle.grid_graph.specs.Grids.{edge_numbers};
ghost use Rattle.grid_graph.specs.Grounds.{AreGrounds};
ghost use Rattle.dual_bound.specs.Bounds.{BoundsDesign};
ghost use Rattle.dual_bound.specs.DesignBounds.{IsBoundOrNone};
ghost use Rattle.dual_bound.specs.Prices.{ArePricesWith};
ghost use Rattle.bound_climb.specs.Climbs.{AreGivenLoads, AreClimbSteps, IsBestCandidate, MayBeTurns, steps_of};
ghost use Rattle.bound_climb.specs.ClimbTurns.{IsClimbSight, IsOffered, HasAsBest};

use crate::climb_loads::{budget_at, most_kept};
use crate::climb_sight::ClimbSight;
use crate::climb_turn::steps_of_turn;
use crate::climbed::Climbed;
use dual_bound::bound;
use edge_prices::Budget;
use grid_base::NoMemory;
use grid_graph::{Design, Ground};
use std::alloc::Global;
use std::thread::Threads;

/// The given price list, before the first turn.
fn given<R: Threads + Sync>(
    rt: &R,
    alloc: Global,
    design: &Design,
    grounds: &[Ground],
    prices: &[u32],
    budget: Option<Budget>,
    turns: u32,
) -> Result<Climbed, NoMemory>
    requires grounds { AreGrounds design.now.grid design.now.nets grounds.now }
    requires prices { ArePricesWith design.now.grid prices.now budget }
    requires turns { MayBeTurns turns }
    ensures none { IfOk result (λ climbed. climbed.steps.items ≡ []) }
    ensures bound { IfOk result (λ climbed. IsBoundOrNone design.now prices.now budget climbed.bound) }
    ensures bounds { IfOk result (λ climbed. IfSome climbed.bound (λ f. BoundsDesign design.now (most_of budget) f.num f.den)) }
    ensures best { IfOk result (λ climbed. HasAsBest prices.now budget climbed.bound 0 climbed) }
{
    let found = bound(rt, alloc, design, grounds, prices, budget)?;
    Ok(Climbed {
        prices: Vec::from_slice(alloc, prices)?,
        budget,
        bound: found,
        turn: 0,
        steps: Vec::with_capacity(alloc, turns as usize - 1)?,
    })
}

/// Offers the prices that the nets of a turn see, with the bound at them.
fn offer_turn<R: Threads + Sync>(
    rt: &R,
    alloc: Global,
    sight: &ClimbSight,
    budget: Option<Budget>,
    turn: u32,
    climbed: &mut Climbed,
) -> Result<(), NoMemory>
    requires sight { IsClimbSight sight.now }
    requires budget { IsWithinLimits budget }
    requires long { length climbed.old.prices.items ≡ edge_numbers sight.now.design.now.grid }
    ensures offered { OnOk result (IsOffered sight.now budget turn climbed.old climbed.new) }
{
    let prices = sight.kept.prices();
    let edges = 2 * sight.design.grid.size().vertices() as usize;
    let budget = budget_at(&sight.design.grid, prices, budget);
    let found = bound(
        rt,
        alloc,
        sight.design,
        sight.grounds,
        &prices[..edges],
        budget,
    )?;
    climbed.offer(&prices[..edges], budget, found, turn);
    Ok(())
}

/// Climbs from a price list. In each turn but the last every net gets a step at the prices of all loads so far, at scale 1, and
/// what these sets use comes to the loads. Each price list that comes up is a candidate, after the given one, and the answer is
/// the first candidate at which the bound of the design is greatest.
///
/// `grounds` has the ground of each net, `prices` one price per edge number, and `loads` one load per edge number and that of
/// the wirelength behind them. A `budget` stays what it is, but for its price. All nets of a turn see the same loads, so the
/// answer doesn't depend on threads. Want of memory is the only error.
pub fn climb<R: Threads + Sync>(
    rt: &R,
    alloc: Global,
    design: &Design,
    grounds: &[Ground],
    prices: &[u32],
    budget: Option<Budget>,
    loads: &[u64],
    turns: u32,
) -> Result<Climbed, NoMemory>
    requires grounds { AreGrounds design.now.grid design.now.nets grounds.now }
    requires prices { ArePricesWith design.now.grid prices.now budget }
    requires loads { AreGivenLoads design.now.grid loads.now }
    requires turns { MayBeTurns turns }
    ensures steps { IfOk result (λ climbed. AreClimbSteps design.now (most_of budget) loads.now turns (steps_of climbed)) }
    ensures best { IfOk result (IsBestCandidate design.now prices.now budget loads.now turns) }
    ensures prices { IfOk result (λ climbed. ArePricesWith design.now.grid climbed.prices.items climbed.budget) }
    ensures bounds { IfOk result (λ climbed. IfSome climbed.bound (λ f. BoundsDesign design.now (most_of budget) f.num f.den)) }
{
    let mut climbed = given(rt, alloc, design, grounds, prices, budget, turns)?;
    let mut sight = ClimbSight::new(alloc, design, grounds, loads, most_kept(budget))?;
    offer_turn(rt, alloc, &sight, budget, 1, &mut climbed)?;
    for turn in 1..turns {
        let trees = steps_of_turn(rt, alloc, &sight)?;
        sight.notice(trees.as_slice());
        climbed.steps.push(trees)?;
        offer_turn(rt, alloc, &sight, budget, turn + 1, &mut climbed)?;
    }
    Ok(climbed)
}
