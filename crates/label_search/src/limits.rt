//! The limit of all searches of a run.

/// All that search at the same time have labels for so many vertices together at most.
pub const MAX_LABELLED: u32 = 1 << 24;
