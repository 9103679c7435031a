//! The prices that a certificate lists.

ghost use Rattle.std.specs.Prelude.{◌≡◌, IfOk};
ghost use Rattle.edge_prices.specs.Weights.{ArePrices};
ghost use Rattle.judge_laws.specs.OpenPrices as words;

use cert_text::PriceList;
use grid_base::{Edge, NoMemory};
use grid_graph::Grid;
use std::alloc::Global;

/// The prices of the open edges, in rising order of the edges' numbers. `prices` has a price for each edge number, and perhaps more.
pub fn open_prices(alloc: Global, grid: &Grid, prices: &[u32]) -> Result<PriceList, NoMemory>
    requires { ArePrices grid.now prices.now }
    ensures { IfOk result (λ list. list ≡ words.open_prices grid.now prices.now) }
{
    let mut open = Vec::new(alloc);
    for e in 0..2 * grid.size().vertices() {
        if grid.capacity(Edge(e)) > 0 {
            open.push(prices[e as usize])?;
        }
    }
    Ok(PriceList::of(open))
}
