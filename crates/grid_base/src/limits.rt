//! The limits of a grid.

/// The most vertices that a grid has.
pub const MAX_VERTICES: u32 = 1 << 23;

/// The most layers that a grid has.
pub const MAX_LAYERS: u32 = 16;
