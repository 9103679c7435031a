//! What is reported of new routes.

use tree_set::Measure;

/// What is reported of new routes, and of those that were given.
#[derive(Clone, Copy, Debug, Drop, PartialEq, Eq)]
pub struct RerouteReport {
    /// How many nets the design has.
    pub nets: u64,
    /// How many of them are joined by open and choked edges alone, and not by open ones.
    pub forced: u64,
    /// How many nets with two or more terminals had no block.
    pub routed: u64,
    /// How many other nets got another set.
    pub rerouted: u64,
    /// How many rounds of negotiation there were.
    pub rounds: u32,
    /// The measure of the new routes.
    pub measure: Measure,
    /// The measure of the given ones.
    pub given: Measure,
}
