//! An edit.

use grid_graph::Name;
use lists::Items;

/// A pin of a net, as a position on a layer. Layers count from 1.
#[derive(Clone, Copy, Debug, Drop, PartialEq, Eq)]
pub struct Pin {
    pub x: i64,
    pub y: i64,
    pub layer: i64,
}

/// Pins, in order.
pub type Pins = Items<Pin>;

/// What is to become of one net. Nets are named by their ids.
#[derive(Debug, Drop)]
pub enum Edit {
    /// The net goes.
    Drop {
        id: u32,
    },
    /// A net comes, behind all others.
    Add {
        name: Name,
        id: u32,
        width: u32,
        pins: Pins,
    },
    /// The net gets another width and other pins.
    Change {
        id: u32,
        width: u32,
        pins: Pins,
    },
}
