//! The limits of the search for a tree.

ghost use Rattle.std.specs.Prelude.{◌≤◌};
ghost use Rattle.label_search.specs.Stamped.{most};

use crate::limits::MOST;

/// Where the searches for one tree end.
#[derive(Clone, Copy)]
pub(crate) struct TreeLimits {
    /// What some tree between the tiles weighs.
    pub(crate) guess: u64,
    /// Up to which weight the table of tiles is searched.
    pub(crate) table: u64,
    /// By how much the search of the grid begins above what that table tells.
    pub(crate) slack: u64,
}

impl TreeLimits {
    /// The limits by the weight of a tree between tiles, by how much the table's is above it, and the slack of the grid.
    pub(crate) fn new(guess: u64, table_slack: u64, slack: u64) -> TreeLimits
        ensures { result.table ≤ most }
    {
        TreeLimits {
            guess,
            table: guess.saturating_add(table_slack).min(MOST),
            slack,
        }
    }
}
