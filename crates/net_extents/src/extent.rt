//! How far a net reaches.

/// How far a net reaches: half the perimeter of its terminals' box, the first tile that has one of them, and how many pieces each of
/// its sets has at least, as far as boxes and layers tell. Orders rest on it, and which nets a pass leaves out; no promise does.
#[derive(Debug, Clone, Copy, Drop)]
pub struct Extent {
    pub half_perimeter: u32,
    pub tile: u32,
    pub least: u64,
}
