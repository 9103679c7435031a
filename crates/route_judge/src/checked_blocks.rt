//! What the judge says of blocks.

use crate::block_sets::BlockSets;
use crate::reason::Reason;

/// What the judge says of blocks, where nets may lack one.
#[derive(Drop)]
pub enum CheckedBlocks {
    /// Nothing can be objected to them, and this is what they give the nets.
    Yes(BlockSets),
    /// They are no blocks of the design, for this reason.
    No(Reason),
}
