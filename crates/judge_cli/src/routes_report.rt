//! What is reported of routes.

use tree_set::Measure;

/// What is reported of routes that are accepted.
#[derive(Clone, Copy, Debug, Drop, PartialEq, Eq)]
pub struct RoutesReport {
    /// How many nets the design has.
    pub nets: u64,
    /// How many of them are joined by open and choked edges alone, and not by open ones.
    pub forced: u64,
    /// How many nets use a choked edge outside their ground.
    pub beyond: u32,
    pub measure: Measure,
}
