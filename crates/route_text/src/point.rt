//! A point of a route text.

/// A position and a layer, as a route text names them: any position in a tile names that tile, and layers count from 1.
#[derive(Clone, Copy, Debug, Drop, PartialEq, Eq)]
pub struct Point {
    pub x: i64,
    pub y: i64,
    pub layer: i64,
}
