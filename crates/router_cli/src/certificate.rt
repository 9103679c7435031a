//! The certificate of routes.

ghost use Rattle.std.specs.Prelude.{◌≡◌, All, Option, length, IfOk, IfSome};
ghost use Rattle.grid_graph.specs.Grids.{edge_numbers, size_of};
ghost use Rattle.grid_graph.specs.Grounds.{AreGrounds};
ghost use Rattle.edge_prices.specs.Limits.{IsBudget};
ghost use Rattle.edge_prices.specs.Weights.{IsPriceList};
ghost use Rattle.edge_prices.specs.Budgets as budgets;
ghost use Rattle.tree_set.specs.Loads.{load};
ghost use Rattle.tree_set.specs.Measures as measures;
ghost use Rattle.tree_set.specs.Routings.{ArePieces};
ghost use Rattle.dual_bound.specs.Bounds.{BoundsDesign};
ghost use Rattle.router_cli.specs.Certified as words;
ghost use Rattle.router_cli.specs.Certified.{IsCertified};

use cert_text::Cert;
use dual_bound::bound;
use grid_base::NoMemory;
use grid_graph::{Design, Grid, Ground};
use judge_laws::open_prices;
use route_judge::forced_count;
use std::alloc::Global;
use std::thread::Threads;
use tree_set::{Budget, Measure, Tree, measure_of};

/// The budget with the wirelength's price, which is the last one.
fn priced_budget(grid: &Grid, prices: &[u32], budget: Option<u64>) -> Option<Budget>
    requires prices { IsPriceList grid.now prices.now }
    requires budget { IsBudget budget }
    ensures value { result ≡ words.priced_budget grid.now prices.now budget }
    ensures limits { budgets.IsWithinLimits result }
    ensures most { budgets.most_of result ≡ budget }
{
    let price = prices[2 * grid.size().vertices() as usize];
    budget.map(|most| Budget { most, price })
}

/// What is measured of the sets, one per net, with the budget.
fn measured(
    alloc: Global,
    design: &Design,
    trees: &[Tree],
    budget: Option<u64>,
) -> Result<Measure, NoMemory>
    requires one_each { length trees.now ≡ length design.now.nets }
    requires pieces { All (ArePieces (size_of design.now.grid)) trees.now }
    requires budget { IsBudget budget }
    ensures overflow { IfOk result (λ m. m.overflow ≡ measures.overflow design.now.grid (load design.now.grid design.now.nets trees.now)) }
    ensures wirelength { IfOk result (λ m. m.wirelength ≡ measures.wirelength trees.now) }
    ensures peak { IfOk result (λ m. measures.IsPeakWith design.now.grid (load design.now.grid design.now.nets trees.now) (measures.wirelength trees.now) budget m.peak) }
{
    let measure = measure_of(alloc, design, trees)?;
    match budget {
        Some(most) => Ok(measure.with_budget(most)),
        None => Ok(measure),
    }
}

/// What is said of the sets of a design, one per net, and the bound at these prices.
pub(crate) fn certificate<R: Threads + Sync>(
    rt: &R,
    alloc: Global,
    design: &Design,
    grounds: &[Ground],
    trees: &[Tree],
    prices: &[u32],
    budget: Option<u64>,
) -> Result<Cert, NoMemory>
    requires grounds { AreGrounds design.now.grid design.now.nets grounds.now }
    requires one_each { length trees.now ≡ length design.now.nets }
    requires pieces { All (ArePieces (size_of design.now.grid)) trees.now }
    requires prices { IsPriceList design.now.grid prices.now }
    requires budget { IsBudget budget }
    ensures certified { IfOk result (IsCertified design.now budget trees.now prices.now) }
    ensures bounds { IfOk result (λ c. IfSome c.bound (λ f. BoundsDesign design.now budget f.num f.den)) }
{
    let edges = 2 * design.grid.size().vertices() as usize;
    let budget_with_price = priced_budget(&design.grid, prices, budget);
    let measure = measured(alloc, design, trees, budget)?;
    let found = bound(
        rt,
        alloc,
        design,
        grounds,
        &prices[..edges],
        budget_with_price,
    )?;
    Ok(Cert {
        nets: design.nets.list().len() as u32,
        forced: forced_count(grounds) as u32,
        overflow: measure.overflow,
        wirelength: measure.wirelength,
        peak: measure.peak,
        bound: found,
        budget: budget_with_price,
        prices: open_prices(alloc, &design.grid, prices)?,
    })
}
