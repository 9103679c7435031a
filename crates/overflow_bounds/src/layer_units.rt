//! Units of demand.

ghost use Rattle.std.specs.Prelude.{◌≡◌, ◌%◌, ◌<◌, ◌≤◌, ℕ, Contains, IfOk};
ghost use Rattle.grid_base.specs.Numbers.{edge_start, layer_of, layers};
ghost use Rattle.grid_graph.specs.declared.net_spec.NetSpec.{NetSpec as Net};
ghost use Rattle.grid_graph.specs.Grids.{demand_on, edge_numbers, size_of};
ghost use Rattle.grid_graph.specs.Limits.{max_demand};
ghost use Rattle.overflow_bounds.specs.Units.{AreLayerUnits};

use grid_base::{Axis, Edge, NoMemory, Vertex};
use grid_graph::Design;
use std::alloc::Global;

/// The greatest number that divides two others, after Euclid.
fn common_unit(one: u32, other: u32) -> u32
    requires { 0 < one }
    ensures positive { 0 < result }
    ensures small { result ≤ one }
    ensures one { one % result ≡ 0 }
    ensures other { other % result ≡ 0 }
{
    let mut unit = one;
    let mut rest = other;
    while rest > 0 {
        let next = unit % rest;
        unit = rest;
        rest = next;
    }
    unit
}

/// The greatest number that divides what each net uses of the edges of a layer; 1 where there is no net.
fn unit_of_layer(design: &Design, layer: u32) -> u32
    requires { layer < layers (size_of design.now.grid) }
    ensures small { result ≤ max_demand }
    ensures divides { (e : ℕ) (n : Net) → e < edge_numbers design.now.grid → layer_of (size_of design.now.grid) (edge_start e) ≡ layer
        → Contains design.now.nets n → demand_on design.now.grid n.width e % result ≡ 0 }
    ensures positive { 0 < result }
{
    let size = design.grid.size();
    let edge = Edge::along(Vertex(layer * (size.cols() * size.rows())), Axis::X);
    let mut unit = 0;
    for net in design.nets.list() {
        unit = common_unit(design.grid.demand(net.width, edge), unit);
    }
    unit.max(1)
}

/// For each layer the greatest number that divides what each net uses of its edges.
pub(crate) fn layer_units(alloc: Global, design: &Design) -> Result<Vec<u32>, NoMemory>
    ensures { IfOk result (λ units. AreLayerUnits design.now units.items) }
{
    let mut units = Vec::new(alloc);
    for layer in 0..design.grid.size().layers() {
        units.push(unit_of_layer(design, layer))?;
    }
    Ok(units)
}
