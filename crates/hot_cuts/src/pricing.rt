//! Price lists from the prices of tile edges.

ghost use Rattle.std.specs.Prelude.{◌≡◌, ◌≤◌, ◌<◌, ℕ, min, slice_index, IfOk};
ghost use Rattle.grid_graph.specs.Flat.{tile_edge_of};
ghost use Rattle.grid_graph.specs.Grids as grids;
ghost use Rattle.edge_prices.specs.Limits.{max_price};
ghost use Rattle.edge_prices.specs.Weights.{AreEdgePrices};

use edge_prices::MAX_PRICE;
use grid_base::{Edge, NoMemory};
use grid_graph::Grid;
use std::alloc::Global;
use tile_graphs::tile_edges;

/// The price list in which each open edge has the price of its tile edge, by its number on layer 0: at most `MAX_PRICE`, and 0
/// where the list of the tile edges ends before it.
pub fn price_list(alloc: Global, grid: &Grid, tile_prices: &[u32]) -> Result<Vec<u32>, NoMemory>
    ensures prices { IfOk result (λ prices. AreEdgePrices grid.now prices.items) }
    ensures priced { IfOk result (λ prices. (e : ℕ) → grids.IsEdgeNumber grid.now e → 0 < grids.capacity grid.now e
        → slice_index prices.items e ≡ min (slice_index tile_prices.now (tile_edge_of (grids.size_of grid.now) e)) max_price) }
{
    let mut prices = Vec::new(alloc);
    for e in 0..2 * grid.size().vertices() {
        prices.push(price_of_edge(grid, tile_prices, Edge(e)))?;
    }
    Ok(prices)
}

/// The price of an edge, which is 0 where it isn't open.
fn price_of_edge(grid: &Grid, tile_prices: &[u32], e: Edge) -> u32
    requires { grids.IsEdgeNumber grid.now e.0 }
    ensures limit { result ≤ max_price }
    ensures closed { grids.capacity grid.now e.0 ≡ 0 → result ≡ 0 }
    ensures priced { 0 < grids.capacity grid.now e.0
        → result ≡ min (slice_index tile_prices.now (tile_edge_of (grids.size_of grid.now) e.0)) max_price }
{
    if grid.capacity(e) == 0 {
        return 0;
    }
    let tile_edge = e.0 % tile_edges(grid);
    let price = tile_prices.get(tile_edge as usize).copied().unwrap_or(0);
    price.min(MAX_PRICE)
}
