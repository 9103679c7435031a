//! The two directions of edges.

/// Along x, from column to column, or along y, from row to row.
#[derive(Debug, Clone, Copy, PartialEq, Eq)]
pub enum Axis {
    X,
    Y,
}
