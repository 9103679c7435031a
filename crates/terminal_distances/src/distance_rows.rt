//! Room for the distances from terminals.

use grid_base::{NoMemory, Size};
use shortest_paths::Labels;
use std::alloc::Global;
use steiner_tables::LONE_MASKS;

/// Labels for the distances from one terminal, and for those from the others, which are found by the first; made once and used
/// for many trees.
#[derive(Drop)]
pub struct DistanceRows {
    pub root: Labels,
    pub others: Labels,
}

impl DistanceRows {
    ghost use Rattle.std.specs.Prelude.{IfOk};
    ghost use Rattle.terminal_distances.specs.DistanceWords.{AreDistanceRows};

    /// Room for distances in a grid of this size.
    pub fn new(alloc: Global, size: Size) -> Result<DistanceRows, NoMemory>
        ensures { IfOk result (λ rows. AreDistanceRows size rows) }
    {
        Ok(DistanceRows {
            root: Labels::new(alloc, size, LONE_MASKS)?,
            others: Labels::new(alloc, size, LONE_MASKS)?,
        })
    }
}
