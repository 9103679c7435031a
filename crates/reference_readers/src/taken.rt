//! What has been taken of a route text.

use route_text::{Block, Segment};

/// The part of a block that comes next.
#[derive(Clone, Copy, Drop)]
pub(crate) enum Part {
    Name,
    Id,
    /// A further number, or the segments.
    Further,
    /// The rest of a segment's marks and numbers; nothing between two segments.
    Segments(&'static [u8]),
}

/// What has been taken of a text.
#[derive(Drop)]
pub(crate) struct Taken {
    /// The blocks that are whole.
    pub blocks: Vec<Block>,
    /// The part that comes next.
    pub part: Part,
    /// The name of the block that was begun.
    pub name: Vec<u8>,
    /// Its id.
    pub id: u32,
    /// Its segments that are whole.
    pub segments: Vec<Segment>,
    /// The last six numbers, where a segment was begun.
    pub segment: Segment,
}
