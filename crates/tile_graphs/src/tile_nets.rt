//! Nets by their tiles.

ghost use Rattle.std.specs.Prelude.{◌≡◌, ◌<◌, ◌≤◌, ◌+◌, All, IfOk, OnOk, length};
ghost use Rattle.grid_base.specs.Lists.{At};
ghost use Rattle.grid_graph.specs.declared.net_spec.NetSpec.{NetSpec};
ghost use Rattle.grid_graph.specs.Grids.{demand_on};
ghost use Rattle.tile_graphs.specs.TileNets.{HasTiles, listed_tiles};

use grid_base::{Edge, NoMemory};
use grid_graph::Design;
use std::alloc::Global;

/// Which of all tiles are those of a net, and what the net uses of an edge of the lowest layer.
#[derive(Debug, Drop, Clone, Copy, PartialEq, Eq)]
pub struct TileNet {
    first: usize,
    past: usize,
    pub demand: u64,
}

/// The nets of a design that are not in one tile, each with the tiles of all its terminals.
#[derive(Drop)]
pub struct TileNets {
    tiles: Vec<u32>,
    nets: Vec<TileNet>,
}

impl TileNets {
    /// The nets of a design.
    pub fn of(alloc: Global, design: &Design) -> Result<TileNets, NoMemory>
        ensures few { IfOk result (λ made. length made.nets.items ≤ length design.now.nets) }
        ensures tiles { IfOk result (λ made. All (HasTiles made.tiles.items) made.nets.items) }
    {
        let mut nets = TileNets {
            tiles: Vec::new(alloc),
            nets: Vec::new(alloc),
        };
        for place in 0..design.nets.list().len() {
            nets.add(alloc, design, place)?;
        }
        Ok(nets)
    }

    /// The nets.
    pub fn list(&self) -> &[TileNet]
        ensures { result.now ≡ self.now.nets.items }
    {
        self.nets.as_slice()
    }

    /// The tiles of a net, each once.
    pub fn tiles_of(&self, net: TileNet) -> &[u32]
        ensures { result.now ≡ listed_tiles self.now.tiles.items net }
    {
        match self.tiles.as_slice().get(net.first..net.past) {
            Some(tiles) => tiles,
            None => &[],
        }
    }

    /// Adds the net at a place, if it has two tiles at least.
    fn add(&mut self, alloc: Global, design: &Design, place: usize) -> Result<(), NoMemory>
        requires { place < length design.now.nets }
        ensures few { OnOk result (length self.new.nets.items ≤ length self.old.nets.items + 1) }
        ensures tiles { OnOk result (All (HasTiles self.old.tiles.items) self.old.nets.items → All (HasTiles self.new.tiles.items) self.new.nets.items) }
    {
        let tiles = tiles_of_net(alloc, design, place)?;
        if tiles.len() > 1 {
            let first = self.tiles.len();
            self.tiles.extend_from_slice(tiles.as_slice())?;
            self.nets.push(TileNet {
                first,
                past: self.tiles.len(),
                demand: u64::from(demand_of_net(design, place)),
            })?;
        }
        Ok(())
    }
}

/// The tiles of the net at a place, each once and in rising order.
fn tiles_of_net(alloc: Global, design: &Design, place: usize) -> Result<Vec<u32>, NoMemory>
    requires { place < length design.now.nets }
{
    let size = design.grid.size();
    let mut tiles = Vec::new(alloc);
    for terminal in design.nets.list()[place].terminals.list() {
        tiles.push(terminal.0 % (size.cols() * size.rows()))?;
    }
    tiles.sort_unstable();
    tiles.dedup();
    Ok(tiles)
}

/// What the net at a place uses of an edge of the lowest layer.
fn demand_of_net(design: &Design, place: usize) -> u32
    requires { place < length design.now.nets }
    ensures { (n : NetSpec) → At design.now.nets place n → result ≡ demand_on design.now.grid n.width 0 }
{
    design.grid.demand(design.nets.list()[place].width, Edge(0))
}
