//! A rectangle of a guide.

use lists::Items;

/// A rectangle on a layer, by its lower-left and its upper right corner. Layers count from 1.
#[derive(Clone, Copy, Debug, Drop, PartialEq, Eq)]
pub struct Rect {
    pub x1: i64,
    pub y1: i64,
    pub x2: i64,
    pub y2: i64,
    pub layer: i64,
}

/// Rectangles, in order.
pub type Rects = Items<Rect>;
