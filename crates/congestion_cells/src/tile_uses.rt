//! How full a tile edge is.

ghost use Rattle.std.specs.Prelude.{◌≡◌, ◌≤◌, ◌<◌, ◌*◌, ◌^◌, ◌++◌, ◌∷◌, [], ℕ, List, length, slice_index};
ghost use Rattle.grid_graph.specs.declared.grid.Grid.{Grid as AnyGrid};
ghost use Rattle.grid_graph.specs.Flat.{tiles};
ghost use Rattle.grid_graph.specs.Grids.{capacity, edge_numbers, size_of};
ghost use Rattle.congestion_cells.specs.TileUses as words;
ghost use Rattle.congestion_cells.specs.TileUses.{AreLayersOf, is_choked, use_of};

use crate::shown_layers::ShownLayers;
use grid_base::{Edge, Size};
use grid_graph::{Grid, Kind};

/// What the edges over a tile edge carry together, and what they can carry.
#[derive(Clone, Copy, Debug, Drop, PartialEq, Eq)]
pub struct TileUse {
    pub load: u128,
    pub capacity: u64,
    /// One of the edges is choked: an adjustment closed it.
    pub has_choked: bool,
    /// One of the edges carries more than its capacity.
    pub is_overfull: bool,
}

/// How many tile edges a grid has numbers for: as many as edges of a layer.
pub fn tile_edges(size: Size) -> u32
    ensures { result ≡ 2 * tiles size }
{
    2 * (size.cols() * size.rows())
}

impl TileUse {
    /// That of no edges.
    fn none() -> TileUse
        ensures { (g : AnyGrid) (load : ℕ → ℕ) → result ≡ use_of g load [] }
    {
        TileUse {
            load: 0,
            capacity: 0,
            has_choked: false,
            is_overfull: false,
        }
    }

    /// With one more edge.
    fn with(self, load: u64, capacity: u32, kind: Kind) -> TileUse
        requires load { self.load < 2 ^ 127 }
        requires capacity { self.capacity < 2 ^ 63 }
        ensures { result ≡ words.with_edge self load capacity kind }
    {
        TileUse {
            load: self.load + u128::from(load),
            capacity: self.capacity + u64::from(capacity),
            has_choked: self.has_choked || matches!(kind, Kind::Choked),
            is_overfull: self.is_overfull || load > u64::from(capacity),
        }
    }
}

/// How full a tile edge is, by the loads of all edges.
pub fn tile_use(grid: &Grid, loads: &[u64], shown: ShownLayers, tile_edge: u32) -> TileUse
    requires layers { AreLayersOf (size_of grid.now) shown }
    requires edge { tile_edge < 2 * tiles (size_of grid.now) }
    requires loads { length loads.now ≡ edge_numbers grid.now }
    ensures value { result ≡ words.tile_use grid.now (slice_index loads.now) shown tile_edge }
    ensures load { result.load ≤ 2 ^ 96 }
    ensures capacity { result.capacity ≤ 2 ^ 56 }
{
    let per_layer = tile_edges(grid.size());
    let mut found = TileUse::none();
    for i in 0..shown.count {
        let edge = Edge(tile_edge + (shown.first + i) * per_layer);
        found = found.with(loads[edge.0 as usize], grid.capacity(edge), grid.kind(edge));
    }
    found
}
