//! Over which tiles the terminals of a net are spread.

ghost use Rattle.std.specs.Prelude.{◌≡◌};
ghost use Rattle.net_extents.specs.Spreads.{layer_if_several, width_of, AreEachOnce};

use crate::extent::Extent;
use crate::lowest_layers::LowestLayers;
use grid_base::{NoMemory, Size, Vertex};
use std::alloc::Global;

/// The tiles, columns and rows that have a terminal of a net, each once in rising order, and its lowest and highest layer. The
/// lists are kept from net to net.
#[derive(Drop)]
pub(crate) struct Spread {
    tiles: Vec<u32>,
    cols: Vec<u32>,
    rows: Vec<u32>,
    low: u32,
    high: u32,
}

impl Spread {
    ghost use Rattle.std.specs.Prelude.{◌≡◌, ◌+◌, ◌-◌, ◌^◌, ◌++◌, ◌∷◌, [], IfOk, length, max, min, slice_index_or};
    ghost use Rattle.grid_base.specs.Numbers.{col_of, layer_of, row_of};
    ghost use Rattle.grid_graph.specs.Flat.{tile_of};
    ghost use Rattle.net_extents.specs.Spreads.{fewest_vias, half_perimeter, vias_above, IsSpreadOf};

    /// Empty lists and both layers 0, for `take` to fill.
    pub fn none(alloc: Global) -> Spread
        ensures tiles { result.tiles.items ≡ [] }
        ensures cols { result.cols.items ≡ [] }
        ensures rows { result.rows.items ≡ [] }
        ensures low { result.low ≡ 0 }
        ensures high { result.high ≡ 0 }
    {
        Spread {
            tiles: Vec::new(alloc),
            cols: Vec::new(alloc),
            rows: Vec::new(alloc),
            low: 0,
            high: 0,
        }
    }

    /// That of these terminals, in place of those before.
    pub fn take(&mut self, size: Size, terminals: &[Vertex]) -> Result<(), NoMemory>
        ensures { IfOk result (λ _. IsSpreadOf size terminals.now self.new) }
    {
        self.tiles.clear();
        self.cols.clear();
        self.rows.clear();
        self.low = size.layers();
        self.high = 0;
        for v in terminals {
            self.put(size, *v)?;
        }
        sort_once(&mut self.tiles);
        sort_once(&mut self.cols);
        sort_once(&mut self.rows);
        Ok(())
    }

    /// Takes one terminal more.
    fn put(&mut self, size: Size, v: Vertex) -> Result<(), NoMemory>
        ensures tiles { IfOk result (λ _. self.new.tiles.items ≡ self.old.tiles.items ++ tile_of size v.0 ∷ []) }
        ensures cols { IfOk result (λ _. self.new.cols.items ≡ self.old.cols.items ++ col_of size v.0 ∷ []) }
        ensures rows { IfOk result (λ _. self.new.rows.items ≡ self.old.rows.items ++ row_of size v.0 ∷ []) }
        ensures low { IfOk result (λ _. self.new.low ≡ min self.old.low (layer_of size v.0)) }
        ensures high { IfOk result (λ _. self.new.high ≡ max self.old.high (layer_of size v.0)) }
    {
        let tiles = size.cols() * size.rows();
        let layer = size.layer_of(v);
        self.tiles.push(v.0 % tiles)?;
        self.cols.push(v.0 % size.cols())?;
        self.rows.push(v.0 / size.cols() % size.rows())?;
        self.low = self.low.min(layer);
        self.high = self.high.max(layer);
        Ok(())
    }

    /// How far a net with these terminals reaches.
    pub fn extent(&self, lowest: LowestLayers) -> Extent
        ensures half_perimeter { result.half_perimeter ≡ half_perimeter self.now }
        ensures tile { result.tile ≡ slice_index_or self.now.tiles.items 0 0 }
        ensures least { result.least ≡ min (half_perimeter self.now + fewest_vias lowest self.now) (2 ^ 64 - 1) }
    {
        let half_perimeter = width_of(&self.cols).saturating_add(width_of(&self.rows));
        Extent {
            half_perimeter,
            tile: self.tiles.first().map_or(0, |tile| *tile),
            least: u64::from(half_perimeter).saturating_add(self.fewest_vias(lowest)),
        }
    }

    /// So many vias at least lead to the layers on which the net can get from column to column and from row to row.
    fn fewest_vias(&self, lowest: LowestLayers) -> u64
        ensures { result ≡ min (fewest_vias lowest self.now) (2 ^ 64 - 1) }
    {
        let for_cols = layer_if_several(&self.cols, lowest.along_x);
        let for_rows = layer_if_several(&self.rows, lowest.along_y);
        let mut vias = u64::from(self.high.saturating_sub(self.low));
        for layer in self.high..for_cols.max(for_rows) {
            vias = vias.saturating_add(self.vias_above(layer, lowest));
        }
        vias
    }

    /// So many vias at least lead up from a layer that no terminal is above: one from each tile, and where tiles of one row or
    /// of one column can be joined below, one from each row or column.
    fn vias_above(&self, layer: u32, lowest: LowestLayers) -> u64
        ensures { result ≡ vias_above lowest self.now layer }
    {
        let parts = if lowest.along_x <= layer {
            &self.rows
        } else if lowest.along_y <= layer {
            &self.cols
        } else {
            &self.tiles
        };
        parts.len() as u64
    }
}

/// The layer where there are several numbers, else the lowest one.
fn layer_if_several(numbers: &[u32], layer: u32) -> u32
    ensures { result ≡ layer_if_several numbers.now layer }
{
    if numbers.len() > 1 { layer } else { 0 }
}

/// The numbers in rising order, each once.
fn sort_once(numbers: &mut Vec<u32>)
    ensures { AreEachOnce numbers.old.items numbers.new.items }
{
    numbers.sort_unstable();
    numbers.dedup();
}

/// From the first to the last of these numbers, which rise.
fn width_of(numbers: &[u32]) -> u32
    ensures { result ≡ width_of numbers.now }
{
    match (numbers.first(), numbers.last()) {
        (Some(first), Some(last)) => last.saturating_sub(*first),
        _ => 0,
    }
}
