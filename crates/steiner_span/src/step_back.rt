//! A step back.

use grid_base::{Piece, Spot};

/// A step from a vertex to a neighbour of smaller number.
#[derive(Clone, Copy)]
pub(crate) struct StepBack {
    pub(crate) from: Spot,
    pub(crate) by: Piece,
}
