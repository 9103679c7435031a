//! The bound of a design at a price list.

ghost use Rattle.std.specs.Prelude.{◌≡◌, ◌↔◌, IfOk, IfSome, IsNone};
ghost use Rattle.grid_graph.specs.Grounds.{AreGrounds};
ghost use Rattle.edge_prices.specs.Budgets.{most_of};
ghost use Rattle.dual_bound.specs.Bounds.{BoundsDesign};
ghost use Rattle.dual_bound.specs.DesignBounds.{IsBoundOrNone};
ghost use Rattle.dual_bound.specs.Prices.{ArePricesWith};

use crate::numerator::sum_of_bounds;
use crate::priced::Priced;
use grid_base::NoMemory;
use grid_graph::{Design, Ground};
use std::alloc::Global;
use std::thread::Threads;
use tree_set::{Budget, Fraction};

/// The bound of a design at a price list: what its nets cost at least, by what all capacities cost. `None` is a price list at
/// which the capacities cost nothing.
///
/// `grounds` has the ground of each net, and `prices` one price per edge number. The nets are divided in at most eight parts,
/// which `rayon` runs in as many threads as it takes.
pub fn bound<R: Threads + Sync>(
    rt: &R,
    alloc: Global,
    design: &Design,
    grounds: &[Ground],
    prices: &[u32],
    budget: Option<Budget>,
) -> Result<Option<Fraction>, NoMemory>
    requires grounds { AreGrounds design.now.grid design.now.nets grounds.now }
    requires prices { ArePricesWith design.now.grid prices.now budget }
    ensures bound { IfOk result (IsBoundOrNone design.now prices.now budget) }
    ensures bounds { IfOk result (λ found. IfSome found (λ f. BoundsDesign design.now (most_of budget) f.num f.den)) }
{
    let priced = Priced {
        design,
        grounds,
        prices,
        budget,
    };
    let cost = priced.capacity_cost();
    if cost == 0 {
        return Ok(None);
    }
    let total = sum_of_bounds(rt, alloc, &priced)?;
    Ok(Some(Fraction::of(total, u128::from(cost))))
}
