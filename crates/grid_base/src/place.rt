//! Where a vertex is.

/// A column, a row and a layer, each counted from 0. It need not be in the grid.
#[derive(Debug, Clone, Copy, PartialEq, Eq)]
pub struct Place {
    pub col: u32,
    pub row: u32,
    pub layer: u32,
}
