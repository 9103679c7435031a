//! What some rounds came to.

use crate::routing::Routing;

/// What some rounds came to: the routing that is left, whose share is as the last of them left it, how many rounds there were,
/// and the least overflow so far.
#[derive(Drop)]
pub(crate) struct Repaired {
    pub routing: Routing,
    pub rounds: u32,
    pub least: u64,
}
