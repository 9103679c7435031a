//! Boxes of terminals.

ghost use Rattle.steiner_exact.specs.declared.extent.Extent.{Extent};

use crate::extent::Extent;
use grid_base::{Place, Size};
use grid_graph::Floors;

/// The columns, rows and layers that terminals span.
#[derive(Debug, Drop, Clone, Copy, PartialEq, Eq)]
pub struct TerminalBox {
    pub cols: Extent,
    pub rows: Extent,
    pub layers: Extent,
}

impl TerminalBox {
    ghost use Rattle.std.specs.Prelude.{◌≡◌, ◌≤◌};
    ghost use Rattle.grid_base.specs.Numbers.{IsInside};
    ghost use Rattle.grid_graph.specs.Floors.{AreWithin};
    ghost use Rattle.label_search.specs.Stamped.{far};
    ghost use Rattle.steiner_exact.specs.Boxes.{with_place, box_distance, IsBoxIn};

    /// The box of no terminal.
    pub const NONE: TerminalBox = TerminalBox {
        cols: Extent::NONE,
        rows: Extent::NONE,
        layers: Extent::NONE,
    };

    /// The box with one more place.
    pub fn with(self, place: Place) -> TerminalBox
        ensures { result ≡ with_place self place }
    {
        TerminalBox {
            cols: self.cols.with(place.col),
            rows: self.rows.with(place.row),
            layers: self.layers.with(place.layer),
        }
    }

    /// How far the box reaches with one more place, each step at its floor.
    pub fn distance(self, size: Size, floors: Floors, place: Place) -> u64
        requires within { AreWithin floors }
        requires inside { IsBoxIn size self }
        requires place { IsInside size place }
        ensures value { result ≡ box_distance floors self place }
        ensures limit { result ≤ far }
    {
        u64::from(self.cols.width_with(place.col)) * floors.along_x
            + u64::from(self.rows.width_with(place.row)) * floors.along_y
            + u64::from(self.layers.width_with(place.layer)) * floors.via
    }
}
