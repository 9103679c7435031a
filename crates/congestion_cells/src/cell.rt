//! What a map shows at one place.

ghost use Rattle.std.specs.Prelude.{◌≡◌, ◌≤◌, ◌^◌, []};
ghost use Rattle.congestion_cells.specs.Cells.{cell_of_use, joined, with_cell};

use crate::classes::class_of;
use crate::tile_uses::TileUse;

/// How full the tile edges of a place are.
#[derive(Clone, Copy, Debug, Drop, PartialEq, Eq)]
pub struct Cell {
    /// The class of the fullest one.
    pub class: u8,
    /// One of the edges over them carries more than its capacity.
    pub is_overfull: bool,
    /// One of them has no capacity, and a choked edge.
    pub is_closed: bool,
    /// One of them has some capacity, and a choked edge.
    pub is_partly_closed: bool,
}

impl Cell {
    /// That of no tile edges.
    pub(crate) fn empty() -> Cell
        ensures { result ≡ joined [] }
    {
        Cell {
            class: 0,
            is_overfull: false,
            is_closed: false,
            is_partly_closed: false,
        }
    }

    /// That of one tile edge.
    pub(crate) fn of(tile_use: TileUse) -> Cell
        requires load { tile_use.load ≤ 2 ^ 96 }
        requires capacity { tile_use.capacity ≤ 2 ^ 56 }
        ensures { result ≡ cell_of_use tile_use }
    {
        Cell {
            class: class_of(tile_use.load, tile_use.capacity),
            is_overfull: tile_use.is_overfull,
            is_closed: tile_use.has_choked && tile_use.capacity == 0,
            is_partly_closed: tile_use.has_choked && tile_use.capacity > 0,
        }
    }

    /// With one more tile edge.
    pub(crate) fn with(self, other: Cell) -> Cell
        ensures { result ≡ with_cell self other }
    {
        Cell {
            class: self.class.max(other.class),
            is_overfull: self.is_overfull || other.is_overfull,
            is_closed: self.is_closed || other.is_closed,
            is_partly_closed: self.is_partly_closed || other.is_partly_closed,
        }
    }
}
