//! The maker of price lists.

ghost use Rattle.std.specs.Prelude.{IfOk};
ghost use Rattle.edge_prices.specs.Weights.{AreEdgePrices};

use crate::offers::{TilePrice, by_tile_edges};
use crate::pricing::price_list;
use crate::search::Search;
use grid_base::NoMemory;
use grid_graph::{Design, Grid};
use std::alloc::Global;
use tile_graphs::{TileView, tile_edges};

/// Two price lists of the edges. Each may show something of both, so whoever wants to know the most takes the greater of what
/// they show.
#[derive(Drop)]
pub struct HotCuts {
    /// For the design bound: how full the fullest edge is at least.
    pub for_bound: Vec<u32>,
    /// For overflow: how much every routing has at least.
    pub for_overflow: Vec<u32>,
}

/// Price lists that prove much of a design, from the loads of routes, of which there is one per edge number. They prove more the
/// better the routes are; much of it needs no routes. Where no tile edge is on a cut, all prices are 0.
///
/// In a round each bundle of nets takes a way once, at prices that are renewed before, on the graph of the regions between the
/// hot tile edges. Both lists are found by a subgradient method. That for overflow is found at the capacities, and that for the
/// bound at these times the greatest bound so far, as Dinkelbach finds the greatest ratio in "On nonlinear fractional
/// programming" (1967). Work is bounded, so a crowded design takes some seconds.
pub fn hot_cuts(
    alloc: Global,
    design: &Design,
    loads: &[u64],
    rounds: u32,
) -> Result<HotCuts, NoMemory>
    ensures for_bound { IfOk result (λ cuts. AreEdgePrices design.now.grid cuts.for_bound.items) }
    ensures for_overflow { IfOk result (λ cuts. AreEdgePrices design.now.grid cuts.for_overflow.items) }
{
    let view = TileView::of(alloc, design, loads)?;
    let mut search = Search::new(alloc, &view, rounds)?;
    search.try_all()?;
    let for_overflow = search.for_overflow()?;
    Ok(HotCuts {
        for_bound: edge_prices_of(alloc, &design.grid, search.for_bound())?,
        for_overflow: edge_prices_of(alloc, &design.grid, for_overflow.prices.as_slice())?,
    })
}

/// The price list of some tile edges' prices, which is 0 elsewhere.
fn edge_prices_of(alloc: Global, grid: &Grid, priced: &[TilePrice]) -> Result<Vec<u32>, NoMemory>
    ensures { IfOk result (λ prices. AreEdgePrices grid.now prices.items) }
{
    let tile_prices = by_tile_edges(alloc, priced, tile_edges(grid) as usize)?;
    price_list(alloc, grid, tile_prices.as_slice())
}
