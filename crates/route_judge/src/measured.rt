//! The measure of routes.

use tree_set::Measure;

/// What is measured of routes.
#[derive(Drop, Clone, Copy)]
pub(crate) struct Measured {
    pub measure: Measure,
    /// How many nets use a choked edge outside their ground.
    pub beyond: u32,
}
