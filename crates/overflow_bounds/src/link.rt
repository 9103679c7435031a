//! Links of a graph.

/// Two nodes, and what it costs to get from one to the other.
#[derive(Debug, Drop, Clone, Copy, PartialEq, Eq)]
pub(crate) struct Link {
    pub one: u32,
    pub other: u32,
    pub cost: u64,
}
