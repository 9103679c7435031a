//! Which pieces a net may use.

/// Which pieces a net may use.
#[derive(Debug, Drop, Clone, Copy, PartialEq, Eq)]
pub enum Ground {
    /// Open edges and vias.
    Open,
    /// Open and choked edges, and vias.
    WithChoked,
}
