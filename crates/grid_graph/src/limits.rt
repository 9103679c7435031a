//! The limits of the numbers of a design.

/// The greatest capacity of an edge.
pub const MAX_CAPACITY: u32 = 1 << 18;

/// The greatest demand of a net on an edge.
pub const MAX_DEMAND: u32 = 1023;

/// No number of a design is further than this from zero.
pub const MAX_NUMBER: i64 = 1 << 40;

/// The most nets of a design.
pub const MAX_NETS: u32 = 1 << 22;

/// The most pins over all nets of a design.
pub const MAX_PINS: u32 = 1 << 24;

/// The greatest weight of a piece in a search.
pub const MAX_WEIGHT: u64 = 1 << 38;
