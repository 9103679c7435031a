//! The limit of a table's numbers.

/// The greatest number of a table: 2^61.
pub const MAX_NUMBER: u64 = 1 << 61;
