//! The tile edges that a price list prices.

ghost use Rattle.std.specs.Prelude.{◌≡◌, ◌≤◌, ◌<◌, ◌*◌, IfOk, length, slice_index};
ghost use Rattle.grid_base.specs.Numbers.{vertices};
ghost use Rattle.grid_graph.specs.Flat.{tiles};
ghost use Rattle.congestion_cells.specs.CutEdges as words;
ghost use Rattle.congestion_cells.specs.TileUses.{AreLayersOf};

use crate::shown_layers::ShownLayers;
use crate::tile_uses::tile_edges;
use grid_base::{NoMemory, Size};
use std::alloc::Global;

/// Whether one of the edges over a tile edge has a price.
fn is_priced(size: Size, prices: &[u32], shown: ShownLayers, tile_edge: u32) -> bool
    requires layers { AreLayersOf size shown }
    requires edge { tile_edge < 2 * tiles size }
    requires prices { 2 * vertices size ≤ length prices.now }
    ensures { result ≡ words.is_priced size (slice_index prices.now) shown tile_edge }
{
    let per_layer = tile_edges(size);
    for i in 0..shown.count {
        let edge = tile_edge + (shown.first + i) * per_layer;
        if prices[edge as usize] > 0 {
            return true;
        }
    }
    false
}

/// The tile edges over which an edge has a price, of the layers that are shown, in rising order.
pub fn cut_edges(
    alloc: Global,
    size: Size,
    prices: &[u32],
    shown: ShownLayers,
) -> Result<Vec<u32>, NoMemory>
    requires layers { AreLayersOf size shown }
    requires prices { 2 * vertices size ≤ length prices.now }
    ensures { IfOk result (λ cut. cut.items ≡ words.cut_edges size (slice_index prices.now) shown) }
{
    let mut cut = Vec::new(alloc);
    for e in 0..tile_edges(size) {
        if is_priced(size, prices, shown, e) {
            cut.push(e)?;
        }
    }
    Ok(cut)
}
