//! The least prices along each axis.

ghost use Rattle.std.specs.Prelude.{◌≡◌};

use crate::limits::MAX_PRICE;
use grid_base::{Axis, Edge};

/// For each axis a number that no price of an open edge along it is below.
#[derive(Debug, Drop, Clone, Copy, PartialEq, Eq)]
pub struct LeastPrices {
    pub along_x: u32,
    pub along_y: u32,
}

impl LeastPrices {
    ghost use Rattle.std.specs.Prelude.{◌≤◌, ◌<◌};
    ghost use Rattle.grid_base.specs.declared.axis.Axis.{Axis};
    ghost use Rattle.grid_base.specs.Numbers.{edge_axis};
    ghost use Rattle.edge_prices.specs.Floors.{least_along};

    /// Nothing is known of the prices.
    pub const NONE: LeastPrices = LeastPrices {
        along_x: 0,
        along_y: 0,
    };

    /// There is no price yet.
    pub const GREATEST: LeastPrices = LeastPrices {
        along_x: MAX_PRICE,
        along_y: MAX_PRICE,
    };

    /// The least prices with one more entry of a price list, where the edges come first. The wirelength behind them is along
    /// no axis, and a price of 0 is none.
    pub fn with_entry(self, edges: u32, entry: u32, price: u32) -> LeastPrices
        ensures edge { entry < edges → 0 < price → least_along result (edge_axis entry) ≤ price }
        ensures others { (axis : Axis) → least_along result axis ≤ least_along self axis }
    {
        if price == 0 || entry >= edges {
            return self;
        }
        self.lowered(Edge(entry).axis(), price)
    }

    /// The least prices with one more edge along this axis.
    fn lowered(self, axis: Axis, price: u32) -> LeastPrices
        ensures price { least_along result axis ≤ price }
        ensures others { (other : Axis) → least_along result other ≤ least_along self other }
    {
        match axis {
            Axis::X => LeastPrices {
                along_x: self.along_x.min(price),
                along_y: self.along_y,
            },
            Axis::Y => LeastPrices {
                along_x: self.along_x,
                along_y: self.along_y.min(price),
            },
        }
    }
}
