//! What the judge says of routes whose sets are kept.

use crate::reason::Reason;
use tree_set::Tree;

/// What the judge says of routes whose sets are kept.
#[derive(Drop)]
pub enum CheckedSets {
    /// They are routes of the design, and these are their sets, one per net in file order.
    Yes(Vec<Tree>),
    /// They are none, for this reason.
    No(Reason),
}
