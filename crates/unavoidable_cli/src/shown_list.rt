//! Price lists with what they show.

ghost use Rattle.std.specs.Prelude.{◌≡◌, ◌⊎◌, ◌↔◌, ◌≤◌, IfOk, IsTrue};
ghost use Rattle.edge_prices.specs.Weights.{AreEdgePrices};
ghost use Rattle.grid_graph.specs.Grounds.{AreGrounds};
ghost use Rattle.unavoidable_cli.specs.Findings.{IsAbove};
ghost use Rattle.unavoidable_cli.specs.ShownLists.{IsShownList};

use dual_bound::{Shown, what_prices_show};
use grid_base::NoMemory;
use grid_graph::{Design, Ground};
use hot_cuts::HotCuts;
use std::alloc::Global;
use std::thread::Threads;
use tree_set::Fraction;

/// A price list of a design, and what it shows.
#[derive(Clone, Copy, Drop)]
pub(crate) struct ShownList<'a> {
    pub prices: &'a [u32],
    pub shown: Shown,
}

/// What a price list shows, beside it.
fn shown_list<'a, R: Threads + Sync>(
    rt: &R,
    alloc: Global,
    design: &Design,
    grounds: &[Ground],
    prices: &'a [u32],
) -> Result<ShownList<'a>, NoMemory>
    requires grounds { AreGrounds design.now.grid design.now.nets grounds.now }
    requires prices { AreEdgePrices design.now.grid prices.now }
    ensures shown { IfOk result (IsShownList design.now) }
    ensures prices { IfOk result (λ list. list.prices.now ≡ prices.entry.now) }
{
    let shown = what_prices_show(rt, alloc, design, grounds, prices)?;
    Ok(ShownList { prices, shown })
}

/// What both lists show. Two equal lists take one pass over the nets.
pub(crate) fn shown_lists<'a, R: Threads + Sync>(
    rt: &R,
    alloc: Global,
    design: &Design,
    grounds: &[Ground],
    cuts: &'a HotCuts,
) -> Result<(ShownList<'a>, ShownList<'a>), NoMemory>
    requires grounds { AreGrounds design.now.grid design.now.nets grounds.now }
    requires for_bound { AreEdgePrices design.now.grid cuts.now.for_bound.items }
    requires for_overflow { AreEdgePrices design.now.grid cuts.now.for_overflow.items }
    ensures first { IfOk result (λ lists. IsShownList design.now lists.0) }
    ensures second { IfOk result (λ lists. IsShownList design.now lists.1) }
    ensures first_prices { IfOk result (λ lists. lists.0.prices.now ≡ cuts.now.for_bound.items) }
    ensures second_prices { IfOk result (λ lists. lists.1.prices.now ≡ cuts.now.for_overflow.items) }
{
    let first = shown_list(rt, alloc, design, grounds, cuts.for_bound.as_slice())?;
    if cuts.for_bound.as_slice() == cuts.for_overflow.as_slice() {
        return Ok((first, first));
    }
    let second = shown_list(rt, alloc, design, grounds, cuts.for_overflow.as_slice())?;
    Ok((first, second))
}

/// Whether a bound is above another; `None` is below every fraction.
pub(crate) fn is_above(bound: Option<Fraction>, other: Option<Fraction>) -> bool
    ensures { IsTrue result ↔ IsAbove bound other }
{
    match (bound, other) {
        (None, _) => false,
        (Some(_), None) => true,
        (Some(f), Some(other)) => !f.less_or_equal(&other),
    }
}

/// The list of the greater bound.
pub(crate) fn best_for_bound<'a>(first: ShownList<'a>, second: ShownList<'a>) -> ShownList<'a>
    ensures one { (result ≡ first.entry) ⊎ (result ≡ second.entry) }
    ensures not_first { ¬ IsAbove first.entry.shown.bound result.shown.bound }
    ensures not_second { ¬ IsAbove second.entry.shown.bound result.shown.bound }
{
    if is_above(second.shown.bound, first.shown.bound) {
        second
    } else {
        first
    }
}
