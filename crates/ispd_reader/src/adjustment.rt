//! An adjustment.

use grid_base::Edge;

/// The new capacity of one edge, or of none where the two tiles lie one above the other.
#[derive(Clone, Copy, Debug, Drop, PartialEq, Eq)]
pub struct Adjustment {
    pub edge: Option<Edge>,
    pub level: u32,
}
