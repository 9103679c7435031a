//! Price lists that anybody may bring.

ghost use Rattle.std.specs.Prelude.{◌↔◌, IsTrue};
ghost use Rattle.edge_prices.specs.Weights.{AreEdgePrices};

use crate::limits::MAX_PRICE;
use grid_base::Edge;
use grid_graph::Grid;

/// Whether these are prices of the edges alone, as a [`Costing`](crate::Costing) takes them: one entry per edge number.
pub fn are_edge_prices(grid: &Grid, prices: &[u32]) -> bool
    ensures { IsTrue result ↔ AreEdgePrices grid.now prices.now }
{
    let edges = 2 * grid.size().vertices();
    if prices.len() != edges as usize {
        return false;
    }
    for e in 0..edges {
        let price = prices[e as usize];
        if price > MAX_PRICE || (price > 0 && grid.capacity(Edge(e)) == 0) {
            return false;
        }
    }
    true
}
