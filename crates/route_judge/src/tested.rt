//! A block to which nothing is objected.

use straight_runs::Run;

/// A block to which nothing is objected.
#[derive(Drop)]
pub(crate) struct TestedBlock {
    /// Where its net stands.
    pub place: usize,
    /// Runs of its pieces, none of which is in two of them.
    pub runs: Vec<Run>,
}
