//! The limits of tables over the sets of terminals.

/// Nets of up to so many terminals have least trees and exact bounds, by tables over the sets of their terminals.
pub const FEW_TERMINALS: usize = 5;

/// How many sets of so few terminals are without the root.
pub const ROOTED_MASKS: u32 = 15;

/// How many sets of so few terminals there are but that of all.
pub const PROPER_MASKS: u32 = 30;

/// The masks up to that of the last of so few terminals alone.
pub const LONE_MASKS: u32 = 16;
