//! A vertex.

/// One tile of one layer, by its number. At column c, row r and layer l it is
/// `(l * rows + r) * cols + c`, all counted from 0.
#[derive(Debug, Clone, Copy, PartialEq, Eq, PartialOrd, Ord)]
pub struct Vertex(pub u32);
