//! What a route is made of.

use crate::edge::Edge;
use crate::via::Via;

/// An edge or a via. All edges by number come before all vias by number.
#[derive(Debug, Clone, Copy, PartialEq, Eq, PartialOrd, Ord)]
pub enum Piece {
    Edge(Edge),
    Via(Via),
}
