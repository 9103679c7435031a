//! The limit of a search that has none.

/// Above each number with what is still to go: no offer is refused for this limit.
pub(crate) const NO_LIMIT: u64 = 1 << 62;
