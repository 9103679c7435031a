//! Blocks in little memory.

ghost use Rattle.std.specs.Prelude.{◌≡◌, ◌<◌, ◌≤◌, [], length, slice_range};
ghost use Rattle.grid_base.specs.Lists.{At};
ghost use Rattle.route_text.specs.FlatBlocks as flat;

use crate::block_head::BlockHead;
use crate::block_ref::BlockRef;
use crate::blocks::Blocks;
use crate::segment::Segment;
use std::alloc::Global;
use std::marker::Model;

/// Blocks in the order of a text, in little memory: 12 bytes each, beside the bytes of their names and their segments.
#[derive(Drop)]
pub struct BlockList {
    names: Vec<u8>,
    segments: Vec<Segment>,
    heads: Vec<BlockHead>,
}

impl Model for BlockList {
    ghost use Rattle.std.specs.Prelude.{List, length};
    ghost use Rattle.route_text.specs.declared.block.Block.{Block};

    ghost Value = { List Block };

    ghost use Rattle.route_text.specs.FlatBlocks.{blocks_from, AreInOrder};

    ghost view = { λ a. blocks_from a.names.items a.segments.items 0 0 a.heads.items };

    ghost invariant = { λ a. AreInOrder (length a.names.items) (length a.segments.items) 0 0 a.heads.items };
}

impl BlockList {
    /// No blocks.
    pub fn none(alloc: Global) -> BlockList
        ensures { result ≡ [] }
    {
        BlockList {
            names: Vec::new(alloc),
            segments: Vec::new(alloc),
            heads: Vec::new(alloc),
        }
    }

    /// The blocks with these heads, whose parts lie one behind the other.
    pub(crate) fn of(names: Vec<u8>, segments: Vec<Segment>, heads: Vec<BlockHead>) -> BlockList
        requires { flat.AreInOrder (length names.items) (length segments.items) 0 0 heads.items }
        ensures { result ≡ flat.blocks_from names.items segments.items 0 0 heads.items }
    {
        BlockList {
            names,
            segments,
            heads,
        }
    }
}

/// The head of the block with this number.
fn head_of(heads: &[BlockHead], number: usize) -> BlockHead
    requires { number < length heads.now }
    ensures { At heads.now number result }
{
    heads[number]
}

/// Where the parts of the block with this number begin: its name among the names, and its segments among the segments.
fn starts(heads: &[BlockHead], number: usize) -> (u32, u32)
    requires { number < length heads.now }
    ensures { result ≡ flat.starts 0 0 heads.now number }
{
    if number == 0 {
        return (0, 0);
    }
    let before = head_of(heads, number - 1);
    (before.name_end, before.segments_end)
}

/// The items from one place to before another.
fn part<T>(items: &[T], start: u32, end: u32) -> &[T]
    requires order { start ≤ end }
    requires within { end ≤ length items.now }
    ensures { result.now ≡ slice_range items.now start end }
{
    &items[start as usize..end as usize]
}

impl Blocks for &BlockList {
    ghost list = { λ blocks. blocks.now };

    fn count(&self) -> usize {
        let blocks: &BlockList = self;
        blocks.heads.len()
    }

    fn block(&self, number: usize) -> BlockRef<'_> {
        let blocks: &BlockList = self;
        let heads = blocks.heads.as_slice();
        let head = head_of(heads, number);
        let (name, segment) = starts(heads, number);
        BlockRef {
            name: part(blocks.names.as_slice(), name, head.name_end),
            id: head.id,
            segments: part(blocks.segments.as_slice(), segment, head.segments_end),
        }
    }
}
