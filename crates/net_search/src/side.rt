//! The six neighbours of a vertex.

/// Which neighbour of a vertex.
#[derive(Clone, Copy, PartialEq, Eq)]
#[repr(u8)]
pub(crate) enum Side {
    West,
    East,
    South,
    North,
    Down,
    Up,
}
