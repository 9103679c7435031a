//! The tiles of a route, to be asked for.

ghost use Rattle.std.specs.Prelude.{All};
ghost use Rattle.std.specs.List.Sorted.{IsStrictlyIncreasing};
ghost use Rattle.grid_base.specs.Numbers.{IsVertex};

use crate::listed::listed;
use grid_base::{NoMemory, Place, Size, Vertex};
use std::alloc::Global;
use tree_set::Tree;

/// Some tiles of a grid, as the strictly rising list of their numbers.
#[derive(Drop)]
pub(crate) struct Tiles {
    pub size: Size,
    pub numbers: Vec<u32>,
    pub ghost rising: { IsStrictlyIncreasing numbers.items },
    pub ghost vertices: { All (IsVertex size) numbers.items },
}

impl Tiles {
    ghost use Rattle.std.specs.Prelude.{ℕ, ◌≡◌, ◌↔◌, ◌+◌, ◌≤◌, ◌<◌, All, Contains, IfOk, IsTrue, MatchOption, length, slice_index};
    ghost use Rattle.tree_set.specs.Routings.{ArePieces};
    ghost use Rattle.grid_base.specs.Numbers.{place_at, IsVertex};
    ghost use Rattle.guide_text.specs.RouteTiles.{route_tiles, HasTile, HasTileBefore, HasTileBehind};
    ghost use Rattle.guide_text.specs.TileRects.{IsTileRun};

    /// The tiles of a route: the ends of its pieces, and the terminals.
    pub fn of_route(
        alloc: Global,
        size: Size,
        tree: &Tree,
        terminals: &[Vertex],
    ) -> Result<Tiles, NoMemory>
        requires pieces { ArePieces size tree.now }
        requires terminals { All (λ t. IsVertex size t.0) terminals.now }
        ensures size { IfOk result (λ tiles. tiles.size ≡ size) }
        ensures same { IfOk result (λ tiles. (v : ℕ) → Contains tiles.numbers.items v ↔ Contains (route_tiles size tree.now terminals.now) v) }
    {
        let mut numbers = listed(alloc, size, tree, terminals)?;
        numbers.sort_unstable();
        numbers.dedup();
        Ok(Tiles { size, numbers })
    }

    /// Where the tile at this place of the grid stands in the list, if it is there. It is looked for at `near` first.
    fn position(&self, from: Place, near: usize) -> Option<usize>
        ensures { MatchOption result (¬ HasTile self.now.size self.now.numbers.items from.layer from.row from.col) (λ at. (at < length self.now.numbers.items) × (from ≡ place_at self.now.size (slice_index self.now.numbers.items at))) }
    {
        match self.size.vertex_of(from) {
            Some(v) => self.place_of_number(v.0, near),
            None => None,
        }
    }

    /// Where this number stands in the list, if it is there. It is looked for at `near` first.
    pub fn place_of_number(&self, number: u32, near: usize) -> Option<usize>
        ensures { MatchOption result (¬ Contains self.now.numbers.items number) (λ at. (at < length self.now.numbers.items) × (slice_index self.now.numbers.items at ≡ number)) }
    {
        if near < self.numbers.len() && self.numbers[near] == number {
            return Some(near);
        }
        self.numbers.as_slice().binary_search(&number).ok()
    }

    /// Whether the tile behind the one at this place of the list is there, in the same row.
    fn is_followed(&self, at: usize) -> bool
        requires { at < length self.now.numbers.items }
        ensures { IsTrue result ↔ HasTileBehind self.now.size self.now.numbers.items (place_at self.now.size (slice_index self.now.numbers.items at)) }
    {
        if at + 1 == self.numbers.len() {
            return false;
        }
        let next = self.numbers[at + 1];
        next - self.numbers[at] == 1 && next % self.size.cols() != 0
    }

    /// Whether the tile before the one at this place of the list is there, in the same row.
    pub fn is_inner(&self, at: usize) -> bool
        requires { at < length self.now.numbers.items }
        ensures { IsTrue result ↔ HasTileBefore self.now.size self.now.numbers.items (place_at self.now.size (slice_index self.now.numbers.items at)) }
    {
        at > 0 && self.is_followed(at - 1)
    }

    /// The last column up to which the tiles of a row are there without a gap, from the tile at this place of the list, which is
    /// the tile `from`.
    pub fn run_end(&self, at: usize, from: Place) -> u32
        requires within { at < length self.now.numbers.items }
        requires from { from ≡ place_at self.now.size (slice_index self.now.numbers.items at) }
        ensures order { from.col ≤ result }
        ensures each { (col : ℕ) → from.col ≤ col → col ≤ result → HasTile self.now.size self.now.numbers.items from.layer from.row col }
        ensures behind { ¬ HasTile self.now.size self.now.numbers.items from.layer from.row (result + 1) }
    {
        let mut last = from.col;
        let mut place = at;
        while self.is_followed(place) {
            last += 1;
            place += 1;
        }
        last
    }

    /// Whether the tiles of a row from one column to another are a run. The first of them is looked for at `near` in the list first.
    pub fn is_run(&self, layer: u32, row: u32, first: u32, last: u32, near: usize) -> bool
        ensures { IsTrue result ↔ IsTileRun self.now.size self.now.numbers.items layer row first last }
    {
        let from = Place {
            col: first,
            row,
            layer,
        };
        match self.position(from, near) {
            None => false,
            Some(at) => {
                if self.is_inner(at) {
                    return false;
                }
                self.run_end(at, from) == last
            }
        }
    }

    /// The numbers of the tiles.
    pub fn list(&self) -> &[u32]
        ensures { result.now ≡ self.now.numbers.items }
    {
        self.numbers.as_slice()
    }
}
