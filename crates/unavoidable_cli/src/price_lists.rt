//! The edges that a price list prices.

ghost use Rattle.std.specs.Prelude.{◌≡◌, All, IfOk};
ghost use Rattle.edge_prices.specs.Weights.{AreEdgePrices};
ghost use Rattle.unavoidable_cli.specs.PricedEdges as words;

use crate::priced_edge::PricedEdge;
use grid_base::{Edge, NoMemory};
use grid_graph::Grid;
use std::alloc::Global;

/// The edges that are priced above 0, in rising order, with their prices. `prices` has one price per edge number.
pub(crate) fn priced_edges(
    alloc: Global,
    grid: &Grid,
    prices: &[u32],
) -> Result<Vec<PricedEdge>, NoMemory>
    requires { AreEdgePrices grid.now prices.now }
    ensures { IfOk result (λ edges. edges.items ≡ words.priced_edges grid.now prices.now) }
{
    let mut edges = Vec::new(alloc);
    for e in 0..2 * grid.size().vertices() {
        let price = prices[e as usize];
        if price > 0 {
            let edge = Edge(e);
            edges.push(PricedEdge { edge, price })?;
        }
    }
    Ok(edges)
}
