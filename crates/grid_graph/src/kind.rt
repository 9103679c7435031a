//! What an edge is to the router.

/// What an edge is to the router.
#[derive(Debug, Drop, Clone, Copy, PartialEq, Eq)]
pub enum Kind {
    /// The edge has capacity.
    Open,
    /// The layer has capacity in the edge's direction, but an adjustment left none to this edge.
    Choked,
    /// There is no edge, or neither its layer in its direction nor an adjustment gives it capacity. No route uses it.
    Wall,
}
