//! A set for one net.

ghost use Rattle.std.specs.Prelude.{◌≡◌, ◌<◌, ℕ, [], IfOk, length, slice_index};
ghost use Rattle.edge_prices.specs.KeptLists.{grid_of, scale_of, budget_of, loads_of, KeepsSetting};
ghost use Rattle.edge_prices.specs.Limits.{IsScale, IsBudget};
ghost use Rattle.grid_graph.specs.Grounds.{IsGround};
ghost use Rattle.grid_graph.specs.Grids.{size_of, IsNetWidth};
ghost use Rattle.sharing_runs.specs.NetSteps.{IsStep};
ghost use Rattle.steiner_exact.specs.TreeLabelWords.{AreTreeLabels};

use edge_prices::KeptPrices;
use grid_base::NoMemory;
use grid_graph::{Grid, Ground, NetSpec};
use std::alloc::Global;
use steiner_exact::{TreeLabels, least_tree};
use steiner_span::spanning_tree;
use steiner_tables::FEW_TERMINALS;
use tree_set::Tree;

/// The prices of a grid that nothing is routed on: one for each edge number, and behind these that of the wirelength. They
/// count loads by `scale`; `budget` is the wirelength that is to be kept. Want of memory is the only error.
pub fn prices_without_loads<'a>(
    alloc: Global,
    grid: &'a Grid,
    scale: u32,
    budget: Option<u64>,
) -> Result<KeptPrices<'a>, NoMemory>
    requires scale { IsScale scale }
    requires budget { IsBudget budget }
    ensures grid { IfOk result (λ k. grid_of k ≡ grid.now) }
    ensures scale { IfOk result (λ k. scale_of k ≡ scale) }
    ensures budget { IfOk result (λ k. budget_of k ≡ budget) }
    ensures loads { IfOk result (λ k. (r : ℕ) → slice_index (loads_of k) r ≡ 0) }
{
    let size = grid.size();
    let entries = 2 * size.vertices() as usize + 1;
    let tile_edges = 2 * (size.cols() * size.rows()) as usize;
    let loads = vec![in alloc; 0; entries]?;
    let prices = vec![in alloc; 0; entries]?;
    let tile_prices = vec![in alloc; 0; tile_edges]?;
    Ok(KeptPrices::new(grid, loads, scale, budget, prices, tile_prices))
}

/// A step for a net at the prices of the loads so far: a tree of least weight, or for many terminals one that is no heavier
/// than any spanning tree of them by distances. Want of memory is the only error.
pub fn route_net(
    alloc: Global,
    kept: &mut KeptPrices<'_>,
    net: &NetSpec,
    over: Ground,
    labels: &mut TreeLabels,
) -> Result<Tree, NoMemory>
    requires labels { AreTreeLabels (size_of (grid_of kept.old)) labels.old }
    requires width { IsNetWidth (grid_of kept.old) net.now.width }
    requires ground { IsGround (grid_of kept.old) net.now.terminals over }
    ensures step { IfOk result (λ tree. IsStep (grid_of kept.old) net.now (loads_of kept.old) (scale_of kept.old) (budget_of kept.old) tree) }
    ensures none { length net.now.terminals < 2 → IfOk result (λ tree. tree ≡ []) }
    ensures loads { loads_of kept.new ≡ loads_of kept.old }
    ensures setting { KeepsSetting kept.old kept.new }
    ensures labels { AreTreeLabels (size_of (grid_of kept.old)) labels.new }
{
    kept.renew();
    let weighing = kept.weighing(net.width, over);
    let terminals = net.terminals.list();
    if terminals.len() > FEW_TERMINALS {
        let found = spanning_tree(&weighing, terminals, &mut labels.grid)?;
        return Ok(found.0);
    }
    let found = least_tree(alloc, &weighing, terminals, labels)?;
    Ok(found.0)
}
