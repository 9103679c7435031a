//! What a worker found.

use tree_set::Tree;

/// What was found for the net at this place in a batch.
#[derive(Drop)]
pub(crate) struct Finding {
    pub place: usize,
    pub found: Option<Tree>,
}
