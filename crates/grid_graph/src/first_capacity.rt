//! Capacities before any adjustment.

ghost use Rattle.std.specs.Prelude.{◌≡◌, ℕ, cond, slice_index, IfOk};
ghost use Rattle.grid_graph.specs.Capacities.{is_edge, layer_capacity, IsCapacities};
ghost use Rattle.grid_graph.specs.Layouts.{layout_of_parts, IsGridParts};

use crate::grid_parts::GridParts;
use grid_base::{Axis, Edge, NoMemory, Piece, Size};
use std::alloc::Global;

/// The capacity of the edge number's layer in its direction, and 0 where there is no edge.
pub fn first_capacity(parts: &GridParts, e: Edge) -> u32
    requires { IsGridParts parts.now }
    ensures { result ≡ layer_capacity (layout_of_parts parts.now) e.0 }
{
    let layer = parts.size.layer_of(e.start());
    if layer >= parts.size.layers() {
        return 0;
    }
    let of_layers = match e.axis() {
        Axis::X => &parts.horizontal,
        Axis::Y => &parts.vertical,
    };
    where_edge(parts.size, e, of_layers[layer as usize])
}

/// The layer's capacity where the number belongs to an edge, and 0 where it doesn't.
///
/// Most layers have capacity in one direction alone, so half of all edge numbers are answered without the divisions that
/// tell an edge.
fn where_edge(size: Size, e: Edge, of_layer: u32) -> u32
    ensures { result ≡ cond (is_edge size e.0) of_layer 0 }
{
    if of_layer == 0 {
        return 0;
    }
    if size.is_piece(Piece::Edge(e)) {
        of_layer
    } else {
        0
    }
}

/// One capacity per edge number.
pub fn first_capacities(alloc: Global, parts: &GridParts) -> Result<Vec<u32>, NoMemory>
    requires { IsGridParts parts.now }
    ensures table { IfOk result (λ v. IsCapacities parts.now.size v.items) }
    ensures value { IfOk result (λ v. (e : ℕ) → slice_index v.items e ≡ layer_capacity (layout_of_parts parts.now) e) }
{
    let count = 2 * parts.size.vertices();
    let mut capacities = Vec::with_capacity(alloc, count as usize)?;
    for e in 0..count {
        capacities.push(first_capacity(parts, Edge(e)))?;
    }
    Ok(capacities)
}
