//! The pieces of a ground.

use crate::grid::Grid;
use crate::ground::Ground;
use grid_base::{Piece, PieceSet};

/// The pieces of the grid that the ground allows.
#[derive(Drop)]
pub struct GroundPieces<'a> {
    pub grid: &'a Grid,
    pub over: Ground,
}

impl PieceSet for GroundPieces<'_> {
    ghost use Rattle.grid_graph.specs.Grids.{Allows};

    ghost pieces = { λ s p. Allows s.grid.now s.over p };

    fn allows(&self, p: Piece) -> bool {
        self.grid.allows(self.over, p)
    }
}
