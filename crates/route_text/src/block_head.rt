//! The head of a block in a list.

/// What a list of blocks says of one of them. Its parts begin where those of the block before end.
#[derive(Clone, Copy, Drop)]
pub(crate) struct BlockHead {
    pub id: u32,
    /// Where its name ends among the bytes of all names.
    pub name_end: u32,
    /// Where its segments end among those of all blocks.
    pub segments_end: u32,
}
