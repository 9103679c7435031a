//! The prices of all edges, by those that a certificate lists.

ghost use Rattle.std.specs.Prelude.{◌≡◌, IfOk, cond, slice_index};
ghost use Rattle.route_judge.specs.Counts as counts;

use grid_base::{Edge, NoMemory};
use grid_graph::Grid;
use std::alloc::Global;

/// The price of an edge, where the price at a place of the list is that of the open edge whose turn it is: 0 of one that isn't
/// open, and where the list is too short.
fn price_of(is_open: bool, listed: &[u32], place: usize) -> u32
    ensures { result ≡ cond is_open (slice_index listed.now place) 0 }
{
    if !is_open {
        return 0;
    }
    listed.get(place).copied().unwrap_or(0)
}

/// The price of each edge number, where the prices of the open edges are listed in rising order.
pub fn listed_prices(alloc: Global, grid: &Grid, listed: &[u32]) -> Result<Vec<u32>, NoMemory>
    ensures { IfOk result (λ prices. prices.items ≡ counts.listed_prices grid.now listed.now) }
{
    let mut prices = Vec::new(alloc);
    let mut place = 0;
    for e in 0..2 * grid.size().vertices() {
        let is_open = grid.capacity(Edge(e)) > 0;
        prices.push(price_of(is_open, listed, place))?;
        place += usize::from(is_open);
    }
    Ok(prices)
}
