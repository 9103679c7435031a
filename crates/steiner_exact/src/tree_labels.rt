//! Labels for the search of trees.

use crate::flat_edges::flags_of;
use crate::flat_size::flat_of;
use crate::gaps::Gaps;
use grid_base::{NoMemory, Size};
use shortest_paths::Labels;
use std::alloc::Global;
use steiner_tables::{PROPER_MASKS, ROOTED_MASKS};
use terminal_balls::TerminalBalls;
use terminal_distances::DistanceRows;

/// Labels of a grid and of its flat grid, the flat grid's edges, by how much trees of the one weigh more than those of the
/// other, balls around terminals, and distances from them; made once and used for many trees.
#[derive(Drop)]
pub struct TreeLabels {
    pub grid: Labels,
    pub flat: Labels,
    pub flat_edges: Vec<bool>,
    pub gaps: Gaps,
    /// None before any are grown: they take memory only where vias weigh much.
    pub balls: Option<TerminalBalls>,
    /// None before any are found: they take memory only where trees weigh far more than their boxes.
    pub distances: Option<DistanceRows>,
}

impl TreeLabels {
    ghost use Rattle.std.specs.Prelude.{IfOk};
    ghost use Rattle.steiner_exact.specs.TreeLabelWords.{AreTreeLabels};

    /// Labels for trees in a grid of this size.
    pub fn new(alloc: Global, size: Size) -> Result<TreeLabels, NoMemory>
        ensures { IfOk result (λ l. AreTreeLabels size l) }
    {
        let flat = flat_of(size);
        Ok(TreeLabels {
            grid: Labels::new(alloc, size, ROOTED_MASKS)?,
            flat: Labels::new(alloc, flat, PROPER_MASKS)?,
            flat_edges: flags_of(alloc, flat)?,
            gaps: Gaps::new(alloc)?,
            balls: None,
            distances: None,
        })
    }
}
