//! Floors of weights.

/// What the pieces of each direction weigh at least.
#[derive(Debug, Drop, Clone, Copy, PartialEq, Eq)]
pub struct Floors {
    /// No edge along x that a net may use weighs less.
    pub along_x: u64,
    /// No edge along y that a net may use weighs less.
    pub along_y: u64,
    /// No via weighs less.
    pub via: u64,
}
