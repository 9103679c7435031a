//! A block that is lent.

use crate::segment::Segment;

/// A block of a list, wherever its parts lie.
#[derive(Clone, Copy, Drop)]
pub struct BlockRef<'a> {
    pub name: &'a [u8],
    pub id: u32,
    pub segments: &'a [Segment],
}
