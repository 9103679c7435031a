//! The unit of what ways weigh.

/// What a wire over one edge weighs, and a via.
pub const UNIT: u32 = 4;
