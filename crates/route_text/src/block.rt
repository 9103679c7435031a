//! A block of a route text.

use crate::segment::Segments;
use grid_graph::Name;

/// What a route text says of one net.
#[derive(Drop)]
pub struct Block {
    /// The net's name, which readers may ignore: the id tells which net it is.
    pub name: Name,
    /// The net's id.
    pub id: u32,
    /// Its wires and vias.
    pub segments: Segments,
}
