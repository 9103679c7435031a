//! The least prices over tile edges.

ghost use Rattle.std.specs.Prelude.{ℕ, List, ◌≡◌, ◌≢◌, ◌<◌, ◌*◌, length, slice_index};
ghost use Rattle.grid_graph.specs.Flat.{tiles};
ghost use Rattle.grid_graph.specs.Grids.{size_of, edge_numbers};
ghost use Rattle.edge_prices.specs.TilePrices.{open_price, least_price_over, AreTilePrices};
ghost use Rattle.edge_prices.specs.Weights.{ArePrices};

use crate::limits::MAX_PRICE;
use grid_base::Edge;
use grid_graph::Grid;

/// A number above all prices, for an edge that isn't open.
const NO_PRICE: u32 = MAX_PRICE + 1;

/// The least price of the open edges over a tile edge, which is above `MAX_PRICE` where none is open.
pub fn least_price_over(grid: &Grid, prices: &[u32], e: u32) -> u32
    requires prices { ArePrices grid.now prices.now }
    requires edge { e < 2 * tiles (size_of grid.now) }
    ensures { result ≡ least_price_over grid.now prices.now e }
{
    let per_layer = tile_edges(grid);
    let mut least = NO_PRICE;
    for layer in 0..grid.size().layers() {
        least = least.min(price_of_open(grid, prices, Edge(layer * per_layer + e)));
    }
    least
}

/// Writes the least price over each tile edge.
pub fn write_tile_prices(grid: &Grid, prices: &[u32], out: &mut [u32])
    requires prices { ArePrices grid.now prices.now }
    requires out { length out.old ≡ 2 * tiles (size_of grid.now) }
    ensures { AreTilePrices grid.now prices.now out.new }
{
    for e in 0..tile_edges(grid) {
        out[e as usize] = least_price_over(grid, prices, e);
    }
}

/// Writes the least price over the tile edge of one entry, where no other entry of the prices changed.
pub fn write_tile_price(grid: &Grid, prices: &[u32], entry: u32, out: &mut [u32])
    requires prices { ArePrices grid.now prices.now }
    requires out { length out.old ≡ 2 * tiles (size_of grid.now) }
    ensures { (before : List ℕ) → AreTilePrices grid.now before out.old → ((k : ℕ) → k ≢ entry → slice_index prices.now k ≡ slice_index before k) → AreTilePrices grid.now prices.now out.new }
{
    if entry >= 2 * grid.size().vertices() {
        return;
    }
    let tile = entry % tile_edges(grid);
    out[tile as usize] = least_price_over(grid, prices, tile);
}

/// How many edge numbers a layer has.
fn tile_edges(grid: &Grid) -> u32
    ensures value { result ≡ 2 * tiles (size_of grid.now) }
    ensures some { 0 < result }
{
    let size = grid.size();
    2 * (size.cols() * size.rows())
}

/// The price of an edge, where it is open. A price that isn't 0 tells that it is.
fn price_of_open(grid: &Grid, prices: &[u32], e: Edge) -> u32
    requires prices { ArePrices grid.now prices.now }
    requires edge { e.0 < edge_numbers grid.now }
    ensures { result ≡ open_price grid.now prices.now e.0 }
{
    if prices[e.0 as usize] > 0 || grid.capacity(e) > 0 {
        prices[e.0 as usize]
    } else {
        NO_PRICE
    }
}
