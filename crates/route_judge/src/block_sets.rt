//! What blocks give the nets of a design, where nets may lack one.

ghost use Rattle.std.specs.Prelude.{◌≡◌, IfOk};
ghost use Rattle.route_judge.specs.Answers.{IfNamed, reason_against_blocks};
ghost use Rattle.route_judge.specs.BlockSets.{AreBlockSets};
ghost use Rattle.route_judge.specs.Limits.{AreBlocks};
ghost use Rattle.route_judge.specs.Objections.{Finds};
ghost use Rattle.route_judge.specs.Orders.{all_block_objections};
ghost use Rattle.route_judge.specs.Stops.{StopsAt};

use crate::checked_blocks::CheckedBlocks;
use crate::missing::missing_nets;
use crate::net_sets::sets_of;
use crate::stop::Stop;
use grid_base::NoMemory;
use grid_graph::Design;
use route_text::Blocks;
use std::alloc::Global;
use tree_set::Tree;

/// What blocks give the nets of a design.
#[derive(Drop)]
pub struct BlockSets {
    /// The set of each net, in file order: the pieces of its block, or none where it has no block.
    pub trees: Vec<Tree>,
    /// Which nets have a block.
    pub has_block: Vec<bool>,
    /// The places of the nets that have two or more terminals and no block, in rising order.
    pub missing: Vec<u32>,
}

/// The sets and the nets without a block. Stops at the first reason against the blocks.
fn named_sets<B: Blocks>(alloc: Global, design: &Design, blocks: B) -> Result<BlockSets, Stop>
    requires { AreBlocks (B.list blocks) }
    ensures stops { StopsAt design.now (all_block_objections (B.list blocks)) result }
    ensures sets { IfOk result (λ sets. AreBlockSets design.now (B.list blocks) sets.trees.items sets.has_block.items sets.missing.items) }
{
    let sets = sets_of(alloc, design, blocks)?;
    let missing = missing_nets(alloc, design, sets.taken.nets.as_slice())?;
    Ok(BlockSets {
        trees: sets.trees,
        has_block: sets.taken.nets,
        missing,
    })
}

/// Whether nothing can be objected to the blocks, but that nets lack one: each is of a net of its own, and its pieces join the net's
/// terminals inside the grid and without walls. A yes has the sets that they give the nets.
///
/// It takes memory and time for each piece, however few segments there are.
pub fn sets_of_blocks<B: Blocks>(
    alloc: Global,
    design: &Design,
    blocks: B,
) -> Result<CheckedBlocks, NoMemory>
    requires { AreBlocks (B.list blocks) }
    ensures first { IfOk result (λ answer. Finds design.now (all_block_objections (B.list blocks)) (reason_against_blocks answer)) }
    ensures sets { IfOk result (λ answer. IfNamed answer (λ sets. AreBlockSets design.now (B.list blocks) sets.trees.items sets.has_block.items sets.missing.items)) }
{
    match named_sets(alloc, design, blocks) {
        Ok(sets) => Ok(CheckedBlocks::Yes(sets)),
        Err(Stop::Refused(reason)) => Ok(CheckedBlocks::No(reason)),
        Err(Stop::NoMemory) => Err(NoMemory),
    }
}
