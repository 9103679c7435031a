//! A rectangle of tiles.

/// Tiles of one layer, from the first row to the last and from the first column to the last. All count from 0.
#[derive(Clone, Copy, Debug, Drop, PartialEq, Eq)]
pub struct TileRect {
    pub layer: u32,
    pub first_row: u32,
    pub last_row: u32,
    pub first_col: u32,
    pub last_col: u32,
}
