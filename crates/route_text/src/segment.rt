//! A segment of a route text.

use crate::point::Point;
use lists::Items;

/// A straight wire or a stack of vias, from one end to the other in either order.
#[derive(Clone, Copy, Debug, Drop, PartialEq, Eq)]
pub struct Segment {
    pub from: Point,
    pub to: Point,
}

/// Segments, in the order of the text.
pub type Segments = Items<Segment>;
