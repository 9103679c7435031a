//! The least prices of a list.

ghost use Rattle.edge_prices.specs.Demands.{AreAllPriced};
ghost use Rattle.edge_prices.specs.Floors.{AreLeast};
ghost use Rattle.edge_prices.specs.Weights.{ArePrices};

use crate::least_prices::LeastPrices;
use grid_graph::Grid;

/// The least prices of the open edges, each of which has a price.
pub fn least_prices_of(grid: &Grid, prices: &[u32]) -> LeastPrices
    requires prices { ArePrices grid.now prices.now }
    requires all_priced { AreAllPriced grid.now prices.now }
    ensures { AreLeast grid.now prices.now result }
{
    let mut least = LeastPrices::GREATEST;
    let edges = 2 * grid.size().vertices();
    for e in 0..edges {
        least = least.with_entry(edges, e, prices[e as usize]);
    }
    least
}
