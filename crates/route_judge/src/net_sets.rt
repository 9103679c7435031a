//! The sets that the blocks of a text give the nets.

ghost use Rattle.std.specs.Prelude.{◌≡◌, [], IfOk};
ghost use Rattle.route_judge.specs.Limits.{AreBlocks};
ghost use Rattle.route_judge.specs.Orders.{all_block_objections};
ghost use Rattle.route_judge.specs.Stops.{StopsAt};
ghost use Rattle.route_judge.specs.TestedBlocks.{AreSetsAfter, AreTaken};

use crate::blocks::test_block;
use crate::net_places::NetPlaces;
use crate::stop::Stop;
use crate::taken::TakenNets;
use crate::tested::TestedBlock;
use grid_base::NoMemory;
use grid_graph::{Design, Kind};
use route_text::Blocks;
use std::alloc::Global;
use straight_runs::{LineCounts, set_of_runs};
use tree_set::Tree;

/// What the blocks of a text give the nets.
#[derive(Drop)]
pub(crate) struct NetSets {
    /// The set of each net, in file order.
    pub trees: Vec<Tree>,
    pub taken: TakenNets,
}

/// One empty set per net.
fn empty_sets(alloc: Global, design: &Design) -> Result<Vec<Tree>, NoMemory>
    ensures { IfOk result (λ trees. AreSetsAfter design.now [] trees.items) }
{
    let mut trees = Vec::new(alloc);
    for _place in 0..design.nets.list().len() {
        trees.push(Tree::empty(alloc))?;
    }
    Ok(trees)
}

/// The set of each net after all blocks, and which nets have one of them. Stops at the first reason against them.
pub(crate) fn sets_of<B: Blocks>(alloc: Global, design: &Design, blocks: B) -> Result<NetSets, Stop>
    requires { AreBlocks (B.list blocks) }
    ensures stops { StopsAt design.now (all_block_objections (B.list blocks)) result }
    ensures sets { IfOk result (λ sets. AreSetsAfter design.now (B.list blocks) sets.trees.items) }
    ensures taken { IfOk result (λ sets. AreTaken design.now (B.list blocks) sets.taken.nets.items) }
{
    let places = NetPlaces::of(alloc, design.nets.list())?;
    let walls = LineCounts::of(alloc, &design.grid, Kind::Wall)?;
    let mut taken = TakenNets::none(alloc, design)?;
    let mut trees = empty_sets(alloc, design)?;
    for number in 0..blocks.count() {
        let TestedBlock { place, runs } = test_block(
            alloc, design, &places, &walls, blocks, number, &mut taken,
        )?;
        let tree = set_of_runs(alloc, design.grid.size(), runs.as_slice())?;
        trees[place] = tree;
    }
    Ok(NetSets { trees, taken })
}
