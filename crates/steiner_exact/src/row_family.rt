//! Lower bounds by a table of the flat grid.

ghost use Rattle.std.specs.Prelude.{ℕ, ◌≡◌, ◌≤◌, ◌-◌, All, length};
ghost use Rattle.grid_base.specs.Numbers.{IsVertex};
ghost use Rattle.grid_graph.specs.Flat.{IsFlatOf};
ghost use Rattle.grid_graph.specs.Limits.{max_weight};
ghost use Rattle.shortest_paths.specs.LabelWords.{labels_size, masks_of, label_of};
ghost use Rattle.steiner_tables.specs.Masks.{proper_masks, few_terminals};
ghost use Rattle.label_search.specs.Stamped.{most, far};
ghost use Rattle.steiner_tables.specs.Tables.{IsFamily, completed};
ghost use Rattle.steiner_exact.specs.Boxes.{AreBoxes};
ghost use Rattle.grid_graph.specs.TilePieces.{tiles_of};
ghost use Rattle.steiner_exact.specs.RowLows.{IsBeside, layers_low, raised_by};

use crate::boxes::{MASKS, boxes_of};
use crate::limits::MOST_LOW;
use crate::terminal_box::TerminalBox;
use grid_base::{Place, Size, Vertex};
use grid_graph::FlooredWeights;
use shortest_paths::{Family, Labels};
use steiner_tables::all_of;

/// The numbers of a table of the terminals' tiles, completed by the bounds under which it was pruned, and each layer to
/// go at the floor of vias.
#[derive(Drop)]
pub struct RowFamily<'a, W: FlooredWeights, B: Family> {
    weights: &'a W,
    size: Size,
    terminals: &'a [Vertex],
    bounds: &'a B,
    labels: &'a Labels,
    limit: u64,
    via: u64,
    boxes: [TerminalBox; MASKS],
    ghost vertices: { All (λ v. IsVertex size v.0) terminals.now },
    ghost few: { length terminals.now ≤ few_terminals },
    ghost flat: { IsFlatOf (B.size bounds.now) size },
    ghost tiles: { B.terminals bounds.now ≡ tiles_of size terminals.now },
    ghost labelled: { labels_size labels.now ≡ B.size bounds.now },
    ghost room: { proper_masks ≤ masks_of labels.now },
    ghost within: { limit ≤ most },
    ghost low_via: { via ≤ max_weight },
    ghost boxed: { AreBoxes size terminals.now boxes },
    ghost layered: { IsBeside size (W.pieces weights.now) (W.over weights.now) terminals.now (layers_low size terminals.now via) },
    ghost over: { (beside : ℕ → ℕ → ℕ) → IsBeside size (W.pieces weights.now) (W.over weights.now) terminals.now beside → IsFamily size (W.pieces weights.now) terminals.now (raised_by size (completed (tiles_of size terminals.now) (B.low bounds.now) limit far (label_of labels.now)) beside) },
}

impl<'a, W: FlooredWeights, B: Family> RowFamily<'a, W, B> {
    ghost use Rattle.std.specs.Prelude.{◌≡◌, ◌≤◌, ◌+◌, ◌-◌, ◌^◌, ◌<◌, All, length};
    ghost use Rattle.grid_base.specs.Numbers.{IsVertex, place_at};
    ghost use Rattle.grid_graph.specs.Flat.{IsFlatOf, tile_of};
    ghost use Rattle.shortest_paths.specs.LabelWords.{labels_size, masks_of, label_of};
    ghost use Rattle.label_search.specs.Stamped.{most, far};
    ghost use Rattle.steiner_tables.specs.Masks.{proper_masks, few_terminals, all_of};
    ghost use Rattle.steiner_tables.specs.Tables.{IsPrunedTable, completed};
    ghost use Rattle.steiner_exact.specs.FlatPieces.{edges_with};
    ghost use Rattle.grid_graph.specs.TilePieces.{tiles_of};
    ghost use Rattle.steiner_exact.specs.RowLows.{layers_low};

    /// The bounds by these labels, which are those of the tiles of at most five terminals by a search under `bounds` and
    /// this limit.
    pub fn new(
        weights: &'a W,
        size: Size,
        terminals: &'a [Vertex],
        bounds: &'a B,
        labels: &'a Labels,
        limit: u64,
    ) -> RowFamily<'a, W, B>
        requires size { size ≡ W.size weights.now }
        requires terminals { All (λ v. IsVertex size v.0) terminals.now }
        requires some { 1 ≤ length terminals.now }
        requires few { length terminals.now ≤ few_terminals }
        requires flat { IsFlatOf (B.size bounds.now) size }
        requires pieces { B.pieces bounds.now ≡ edges_with (B.size bounds.now) (W.over weights.now) }
        requires tiles { B.terminals bounds.now ≡ tiles_of size terminals.now }
        requires labels { labels_size labels.now ≡ B.size bounds.now }
        requires room { proper_masks ≤ masks_of labels.now }
        requires limit { limit ≤ most }
        requires table { IsPrunedTable (B.size bounds.now) (B.pieces bounds.now) (B.terminals bounds.now) (all_of terminals.now - 1) (B.low bounds.now) limit far (label_of labels.now) }
        ensures size { result.size ≡ size }
        ensures weights { result.weights.now ≡ weights.now }
        ensures terminals { result.terminals.now ≡ terminals.now }
    {
        RowFamily {
            weights,
            size,
            terminals,
            bounds,
            labels,
            limit,
            via: weights.floors().via,
            boxes: boxes_of(size, terminals),
        }
    }

    /// The completed number of a mask at the tile under a vertex, and what its layers to go weigh.
    pub(crate) fn parts(&self, mask: u32, v: Vertex, place: Place) -> (u64, u64)
        requires some { 0 < mask }
        requires mask { mask < all_of self.now.terminals.now }
        requires vertex { IsVertex self.now.size v.0 }
        requires place { place ≡ place_at self.now.size v.0 }
        ensures across { result.0 ≡ completed (tiles_of self.now.size self.now.terminals.now) (B.low self.now.bounds.now) self.now.limit far (label_of self.now.labels.now) mask (tile_of self.now.size v.0) }
        ensures layers { result.1 ≡ layers_low self.now.size self.now.terminals.now self.now.via mask v.0 }
        ensures across_limit { result.0 ≤ far }
        ensures layers_limit { result.1 ≤ 2 ^ 42 }
    {
        let tile = Vertex(place.row * self.size.cols() + place.col);
        let ground = Place {
            col: place.col,
            row: place.row,
            layer: 0,
        };
        let across = self.across(mask, tile, ground);
        let layers = self.boxes[mask as usize].layers.width_with(place.layer);
        (across, u64::from(layers) * self.via)
    }

    /// The completed number of a mask at a tile, which stands at this place of the flat grid.
    fn across(&self, mask: u32, tile: Vertex, place: Place) -> u64
        requires some { 0 < mask }
        requires mask { mask < all_of self.now.terminals.now }
        requires vertex { IsVertex (B.size self.now.bounds.now) tile.0 }
        requires place { place ≡ place_at (B.size self.now.bounds.now) tile.0 }
        ensures value { result ≡ completed (tiles_of self.now.size self.now.terminals.now) (B.low self.now.bounds.now) self.now.limit far (label_of self.now.labels.now) mask tile.0 }
        ensures limit { result ≤ far }
    {
        match self.labels.label(mask, tile) {
            Some(kept) => kept,
            None => {
                let low = self.bounds.low(mask, tile, place);
                let rest = self
                    .bounds
                    .low(all_of(self.terminals.len()) - mask, tile, place);
                low.max((self.limit + 1).saturating_sub(rest))
            }
        }
    }
}

impl<'a, W: FlooredWeights, B: Family> Family for RowFamily<'a, W, B> {
    ghost use Rattle.shortest_paths.specs.LabelWords.{label_of};
    ghost use Rattle.steiner_exact.specs.RowLows.{layers_low, row_low};

    ghost size = { λ x. x.size };

    ghost pieces = { λ x. W.pieces x.weights.now };

    ghost terminals = { λ x. x.terminals.now };

    ghost low = { λ x. row_low x.size x.terminals.now x.via (B.low x.bounds.now) x.limit (label_of x.labels.now) };

    ghost holds = { λ x. x.over (layers_low x.size x.terminals.now x.via) x.layered };

    fn low(&self, mask: u32, v: Vertex, place: Place) -> u64 {
        let (across, layers) = self.parts(mask, v, place);
        (across + layers).min(MOST_LOW)
    }
}
