//! An edge with its price.

use grid_base::Edge;

/// An edge and the price that a price list gives it.
#[derive(Clone, Copy, Debug, Drop, PartialEq, Eq)]
pub struct PricedEdge {
    pub edge: Edge,
    pub price: u32,
}
