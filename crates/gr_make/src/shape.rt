//! How large a generated design is.

/// How many columns, rows and layers the grid of a generated design has, and how many nets.
#[derive(Clone, Copy, Debug, Drop, PartialEq, Eq)]
pub struct Shape {
    pub cols: u32,
    pub rows: u32,
    pub layers: u32,
    pub nets: u32,
}
