//! Cuts round single tiles.

ghost use Rattle.std.specs.Prelude.{◌≡◌, IfOk, fold, map, slice_index_or, take};
ghost use Rattle.std.specs.List.{enumerate_from};
ghost use Rattle.tile_graphs.specs.Cuts.{cuts_of, fuller_cut, with_more_at, with_net, with_way_out};
ghost use Rattle.tile_graphs.specs.Fullness.{no_total};
ghost use Rattle.tile_graphs.specs.Uses.{most_tile_edges};

use crate::regions::ends_of;
use crate::tile_use::TileTotal;
use crate::tile_view::TileView;
use grid_base::NoMemory;
use std::alloc::Global;

/// What the tile edges round each tile can carry, and what the nets carry over them that have to leave it, each once and with
/// what it uses on the lowest layer. Routes carry more where they leave a tile often, and less where other layers take less.
#[derive(Drop)]
struct TileCuts {
    totals: Vec<TileTotal>,
}

impl TileCuts {
    /// The cuts of all tiles of a view.
    fn of(alloc: Global, view: &TileView) -> Result<TileCuts, NoMemory>
        ensures { IfOk result (λ cuts. cuts.totals.items ≡ cuts_of view.now) }
    {
        let mut cuts = TileCuts {
            totals: vec![in alloc; TileTotal::NONE; view.tiles() as usize]?,
        };
        for (tile_edge, total) in (0..u32::MAX).zip(view.totals.iter()) {
            let (start, end) = ends_of(view.size, tile_edge);
            cuts.add(start, 0, total.capacity);
            cuts.add(end, 0, total.capacity);
        }
        cuts.add_nets(view);
        Ok(cuts)
    }

    /// Adds to what nets carry out of a tile, and to what its tile edges can carry.
    fn add(&mut self, tile: u32, load: u64, capacity: u64)
        ensures { self.new.totals.items ≡ with_more_at self.old.totals.items tile load capacity }
    {
        if let Some(total) = self.totals.get_mut(tile as usize) {
            *total = total.with(load, capacity);
        }
    }

    /// Adds the nets of a view.
    fn add_nets(&mut self, view: &TileView)
        ensures { self.new.totals.items ≡ fold (with_net view.now.nets.tiles.items) self.old.totals.items view.now.nets.nets.items }
    {
        for net in view.nets.list() {
            self.add_net(view.nets.tiles_of(*net), net.demand);
        }
    }

    /// Adds a net, which leaves each of its tiles.
    fn add_net(&mut self, tiles: &[u32], demand: u64)
        ensures { self.new.totals.items ≡ fold (with_way_out demand) self.old.totals.items tiles.now }
    {
        for tile in tiles {
            self.add(*tile, demand, 0);
        }
    }

    /// The cut of a tile.
    fn get(&self, tile: u32) -> TileTotal
        ensures { result ≡ slice_index_or self.now.totals.items tile no_total }
    {
        self.totals
            .get(tile as usize)
            .copied()
            .unwrap_or(TileTotal::NONE)
    }
}

/// For each open tile edge the fuller one of the cuts round its two tiles, and nothing for the others.
pub fn fuller_cuts(alloc: Global, view: &TileView) -> Result<Vec<TileTotal>, NoMemory>
    ensures { IfOk result (λ cuts. cuts.items
        ≡ map (fuller_cut view.now.size (cuts_of view.now)) (enumerate_from 0 (take most_tile_edges view.now.totals.items))) }
{
    let cuts = TileCuts::of(alloc, view)?;
    let mut fuller = Vec::new(alloc);
    for (tile_edge, total) in (0..u32::MAX).zip(view.totals.iter()) {
        let (start, end) = ends_of(view.size, tile_edge);
        let cut = cuts.get(start).fuller(cuts.get(end));
        fuller.push(if total.is_open() {
            cut
        } else {
            TileTotal::NONE
        })?;
    }
    Ok(fuller)
}
