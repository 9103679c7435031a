//! What stands before a block's segments.

/// What stands before a block's segments. The name lies in the text.
#[derive(Clone, Copy, Drop)]
pub(crate) struct BlockHeading<'a> {
    pub name: &'a [u8],
    pub id: u32,
}
