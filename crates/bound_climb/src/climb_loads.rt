//! The loads of a climb, and their prices.

ghost use Rattle.std.specs.Prelude.{◌≡◌, IfOk, length};
ghost use Rattle.edge_prices.specs.Budgets.{most_of, IsWithinLimits};
ghost use Rattle.edge_prices.specs.KeptLists.{grid_of, scale_of, budget_of, loads_of, IsRenewed, KeepsSetting};
ghost use Rattle.edge_prices.specs.Limits.{IsBudget};
ghost use Rattle.edge_prices.specs.Vectors.{IsLoadList};
ghost use Rattle.edge_prices.specs.Weights.{IsPriceList};
ghost use Rattle.bound_climb.specs.Climbs.{with_price_of};
ghost use Rattle.bound_climb.specs.ClimbTurns.{AreSetsFor, GainsSets, HaveRoomFor};

use edge_prices::{Budget, KeptPrices};
use grid_base::NoMemory;
use grid_graph::{Design, Grid};
use price_workers::notice_tree;
use std::alloc::Global;
use tree_set::Tree;

/// The prices of these loads at scale 1.
pub(crate) fn prices_of_loads<'a>(
    alloc: Global,
    grid: &'a Grid,
    loads: &[u64],
    most: Option<u64>,
) -> Result<KeptPrices<'a>, NoMemory>
    requires loads { IsLoadList grid.now loads.now }
    requires most { IsBudget most }
    ensures grid { IfOk result (λ k. grid_of k ≡ grid.now) }
    ensures scale { IfOk result (λ k. scale_of k ≡ 1) }
    ensures budget { IfOk result (λ k. budget_of k ≡ most) }
    ensures loads { IfOk result (λ k. loads_of k ≡ loads.now) }
    ensures renewed { IfOk result IsRenewed }
{
    let size = grid.size();
    let tile_edges = 2 * (size.cols() * size.rows()) as usize;
    let own = Vec::from_slice(alloc, loads)?;
    let prices = vec![in alloc; 0; loads.len()]?;
    let tile_prices = vec![in alloc; 0; tile_edges]?;
    Ok(KeptPrices::new(grid, own, 1, most, prices, tile_prices))
}

/// The wirelength that is to be kept, or none.
pub(crate) fn most_kept(budget: Option<Budget>) -> Option<u64>
    requires budget { IsWithinLimits budget }
    ensures value { result ≡ most_of budget }
    ensures limits { IsBudget result }
{
    budget.map(|budget| budget.most)
}

/// The budget with the wirelength's price, which is the last one.
pub(crate) fn budget_at(grid: &Grid, prices: &[u32], budget: Option<Budget>) -> Option<Budget>
    requires prices { IsPriceList grid.now prices.now }
    requires budget { IsWithinLimits budget }
    ensures value { result ≡ with_price_of grid.now prices.now budget }
    ensures limits { IsWithinLimits result }
{
    let price = prices[2 * grid.size().vertices() as usize];
    budget.map(|budget| Budget {
        most: budget.most,
        price,
    })
}

/// Puts the loads of sets, one for each net, on the loads.
pub(crate) fn notice_sets(kept: &mut KeptPrices<'_>, design: &Design, trees: &[Tree])
    requires grid { grid_of kept.old ≡ design.now.grid }
    requires sets { AreSetsFor design.now trees.now }
    requires room { HaveRoomFor (length trees.now) (loads_of kept.old) }
    ensures loads { GainsSets design.now.grid design.now.nets trees.now (loads_of kept.old) (loads_of kept.new) }
    ensures setting { KeepsSetting kept.old kept.new }
{
    let nets = design.nets.list();
    for net in 0..nets.len() {
        notice_tree(kept, &design.grid, nets[net].width, &trees[net]);
    }
}
