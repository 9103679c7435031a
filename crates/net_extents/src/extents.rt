//! How far all nets reach.

ghost use Rattle.std.specs.Prelude.{◌≡◌, IfOk, length};
ghost use Rattle.net_extents.specs.Extents.{AreExtents};

use crate::extent::Extent;
use crate::lowest_layers::LowestLayers;
use crate::spread::Spread;
use grid_base::NoMemory;
use grid_graph::Design;
use std::alloc::Global;

/// How far each net reaches, in file order.
pub fn extents_of(alloc: Global, design: &Design) -> Result<Vec<Extent>, NoMemory>
    ensures one_each { IfOk result (λ extents. length extents.items ≡ length design.now.nets) }
    ensures own { IfOk result (λ extents. AreExtents design.now extents.items) }
{
    let size = design.grid.size();
    let lowest = LowestLayers::of(&design.grid);
    let nets = design.nets.list();
    let mut spread = Spread::none(alloc);
    let mut extents = Vec::with_capacity(alloc, nets.len())?;
    for net in nets {
        spread.take(size, net.terminals.list())?;
        extents.push(spread.extent(lowest))?;
    }
    Ok(extents)
}
