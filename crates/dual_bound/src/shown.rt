//! What a price list shows of a design: its bound, and how much overflow every routing has.

ghost use Rattle.std.specs.Prelude.{◌≡◌, ◌*◌, ◌<◌, ◌≤◌, ℕ, List, Option, IfOk, IfSome};
ghost use Rattle.grid_base.specs.declared.piece.Piece.{Piece};
ghost use Rattle.grid_graph.specs.Grounds.{AreGrounds};
ghost use Rattle.edge_prices.specs.Weights.{AreEdgePrices};
ghost use Rattle.tree_set.specs.Loads.{load};
ghost use Rattle.tree_set.specs.Measures.{overflow};
ghost use Rattle.tree_set.specs.Routings.{IsRouting};
ghost use Rattle.dual_bound.specs.Bounds.{BoundsDesign};
ghost use Rattle.dual_bound.specs.DesignBounds.{IsBoundOrNone};
ghost use Rattle.dual_bound.specs.LeastOverflow as words;
ghost use Rattle.dual_bound.specs.LeastOverflow.{IsGreatestPrice, ShowsOverflow};
ghost use Rattle.dual_bound.specs.Limits.{max_least_overflow};
ghost use Rattle.dual_bound.specs.Prices.{free_budget};

use crate::numerator::sum_of_bounds;
use crate::priced::Priced;
use grid_base::NoMemory;
use grid_graph::{Design, Ground};
use std::alloc::Global;
use std::thread::Threads;
use tree_set::Fraction;

/// What a price list shows of a design.
#[derive(Debug, Drop, Clone, Copy, PartialEq, Eq)]
pub struct Shown {
    /// The bound of the design. `None` is a price list at which the capacities cost nothing.
    pub bound: Option<Fraction>,
    /// Every routing has at least so much overflow.
    pub overflow: u64,
}

/// What a price list shows of a design: the bound, which is that of every budget whose wirelength costs nothing, and how much
/// overflow every routing has. One pass over the nets finds both.
///
/// `grounds` has the ground of each net, and `prices` one price per edge number. The nets are divided in at most eight parts,
/// which `rayon` runs in as many threads as it takes.
pub fn what_prices_show<R: Threads + Sync>(
    rt: &R,
    alloc: Global,
    design: &Design,
    grounds: &[Ground],
    prices: &[u32],
) -> Result<Shown, NoMemory>
    requires grounds { AreGrounds design.now.grid design.now.nets grounds.now }
    requires prices { AreEdgePrices design.now.grid prices.now }
    ensures bound { IfOk result (λ shown. (most : Option ℕ) → IsBoundOrNone design.now prices.now (free_budget most) shown.bound) }
    ensures bounds { IfOk result (λ shown. IfSome shown.bound (λ f. (most : Option ℕ) → BoundsDesign design.now most f.num f.den)) }
    ensures overflow { IfOk result (λ shown. ShowsOverflow design.now prices.now shown.overflow) }
    ensures unavoidable { IfOk result (λ shown. (trees : List (List Piece)) → IsRouting design.now.grid design.now.nets trees
        → shown.overflow ≤ overflow design.now.grid (load design.now.grid design.now.nets trees)) }
{
    let priced = Priced {
        design,
        grounds,
        prices,
        budget: None,
    };
    let cost = priced.capacity_cost();
    if cost == 0 {
        return Ok(Shown {
            bound: None,
            overflow: 0,
        });
    }
    let total = sum_of_bounds(rt, alloc, &priced)?;
    let price = greatest_price(prices);
    Ok(Shown {
        bound: Some(Fraction::of(total, u128::from(cost))),
        overflow: least_overflow(total, cost, price),
    })
}

/// The greatest price of a list; 0 where it is empty.
pub fn greatest_price(prices: &[u32]) -> u32
    ensures { IsGreatestPrice prices.now result }
{
    let mut greatest = 0;
    for price in prices {
        greatest = greatest.max(*price);
    }
    greatest
}

/// What the nets cost at least beyond what the capacities cost, by the greatest price, rounded up.
fn least_overflow(total: u128, cost: u64, price: u32) -> u64
    requires price { 0 < price }
    requires limit { total ≤ price * max_least_overflow }
    ensures { result ≡ words.least_overflow total cost price }
{
    let price = u128::from(price);
    let beyond = total.saturating_sub(u128::from(cost));
    ((beyond + (price - 1)) / price) as u64
}
