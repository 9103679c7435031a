//! The price vector of a list of loads.

ghost use Rattle.std.specs.Prelude.{◌≡◌, length};
ghost use Rattle.edge_prices.specs.Limits.{IsScale, IsBudget};
ghost use Rattle.grid_graph.specs.Grids.{entries};
ghost use Rattle.edge_prices.specs.Vectors.{price_vector, IsLoadList};
ghost use Rattle.edge_prices.specs.Weights.{IsPriceList};

use crate::resources::Resources;
use grid_graph::Grid;

/// Writes the price vector of these loads: the price of each open edge by its number, then that of the wirelength, and 0
/// for each edge that isn't open and for the wirelength where there is no budget.
pub fn prices(grid: &Grid, loads: &[u64], scale: u32, budget: Option<u64>, out: &mut [u32])
    requires loads { IsLoadList grid.now loads.now }
    requires scale { IsScale scale }
    requires budget { IsBudget budget }
    requires out { length out.old ≡ entries grid.now }
    ensures vector { out.new ≡ price_vector grid.now loads.now scale budget }
    ensures list { IsPriceList grid.now out.new }
{
    let resources = Resources {
        grid,
        scale,
        budget,
    };
    resources.write_prices(loads, resources.top(loads).index, out);
}
