//! Blocks, however they are kept.

use crate::block::Block;
use crate::block_ref::BlockRef;

/// Blocks in the order of a text, however they are kept.
pub trait Blocks: Copy {
    ghost use Rattle.std.specs.Prelude.{◌≡◌, ◌<◌, List, length};
    ghost use Rattle.grid_base.specs.Lists.{At};
    ghost use Rattle.route_text.specs.declared.block.Block.{Block};
    ghost use Rattle.route_text.specs.LentBlocks.{lent_block};

    ghost list: { Self → List Block };

    /// How many there are.
    fn count(&self) -> usize
        ensures { result ≡ length (list self.now) };

    /// The block with this number.
    fn block(&self, number: usize) -> BlockRef<'_>
        requires { number < length (list self.now) }
        ensures { At (list self.now) number (lent_block result) };
}

impl Blocks for &[Block] {
    ghost list = { λ blocks. blocks.now };

    fn count(&self) -> usize {
        self.len()
    }

    fn block(&self, number: usize) -> BlockRef<'_> {
        let block = &self[number];
        BlockRef {
            name: block.name.list(),
            id: block.id,
            segments: block.segments.list(),
        }
    }
}
