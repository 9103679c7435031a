//! The order in which the nets of a part are bounded.

ghost use Rattle.std.specs.Prelude.{◌≡◌, ◌≤◌, ◌<◌, All, IfOk, length};
ghost use Rattle.grid_base.specs.Numbers.{IsVertex};
ghost use Rattle.grid_graph.specs.Grounds.{AreGrounds};
ghost use Rattle.dual_bound.specs.ClassOrders.{IsPlaceOf, HasEachPlace};

use grid_base::{NoMemory, Place, Size, Vertex};
use grid_graph::{Design, Ground};
use std::alloc::Global;

/// So many rows of tiles are a band. Searches for nets of one band and of columns near one another look at much the same
/// tiles, which a processor then still has at hand.
const BAND: u32 = 32;

/// A net's class, where it lies, and its place in the design. The class is whether it may use choked edges, and its width.
#[derive(Drop, Clone, Copy, PartialEq, Eq, PartialOrd, Ord)]
pub struct ClassedNet {
    pub with_choked: bool,
    pub width: u32,
    /// The band of its first terminal.
    pub band: u32,
    /// The column of its first terminal.
    pub col: u32,
    pub place: u32,
}

/// Where the first of some terminals lies.
fn place_of_first(size: Size, terminals: &[Vertex]) -> Place
    requires { All (λ t. IsVertex size t.0) terminals.now }
{
    match terminals.first() {
        Some(first) => size.place_of(*first),
        None => Place {
            col: 0,
            row: 0,
            layer: 0,
        },
    }
}

/// The net at a place, with its class.
fn classed(design: &Design, grounds: &[Ground], place: usize) -> ClassedNet
    requires grounds { AreGrounds design.now.grid design.now.nets grounds.now }
    requires place { place < length design.now.nets }
    ensures { result.place ≡ place }
{
    let net = &design.nets.list()[place];
    let first = place_of_first(design.grid.size(), net.terminals.list());
    ClassedNet {
        with_choked: grounds[place] == Ground::WithChoked,
        width: net.width,
        band: first.row / BAND,
        col: first.col,
        place: place as u32,
    }
}

/// The nets from a place up to another, those of one class behind one another: between two classes the costs of all tile
/// edges are taken anew. Those of a class are in the order of where they lie. `grounds` has the ground of each net.
pub fn nets_by_class(
    alloc: Global,
    design: &Design,
    grounds: &[Ground],
    from: usize,
    to: usize,
) -> Result<Vec<ClassedNet>, NoMemory>
    requires grounds { AreGrounds design.now.grid design.now.nets grounds.now }
    requires order { from ≤ to }
    requires inside { to ≤ length design.now.nets }
    ensures inside { IfOk result (λ nets. All (IsPlaceOf from to) nets.items) }
    ensures whole { IfOk result (λ nets. HasEachPlace from to nets.items) }
{
    let mut nets = Vec::with_capacity(alloc, to - from)?;
    for place in from..to {
        nets.push(classed(design, grounds, place))?;
    }
    nets.sort_unstable();
    Ok(nets)
}
