//! The guide of a net.

use crate::rect::Rects;
use grid_graph::Name;

/// Where a detailed router may lay the wires of one net.
#[derive(Debug, Drop)]
pub struct Guide {
    /// The net's name.
    pub name: Name,
    /// The net's id.
    pub id: u32,
    /// Rectangles that consist of tiles.
    pub rects: Rects,
}
