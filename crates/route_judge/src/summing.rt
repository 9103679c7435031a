//! Goes through the blocks of a text and sums up what is measured of them.

ghost use Rattle.std.specs.Prelude.{IfOk};
ghost use Rattle.grid_graph.specs.Grounds.{AreGrounds};
ghost use Rattle.route_judge.specs.Limits.{AreBlocks};
ghost use Rattle.route_judge.specs.Orders.{route_objections};
ghost use Rattle.route_judge.specs.RunningMeasures.{AreSumsOf};
ghost use Rattle.route_judge.specs.Stops.{StopsAt};

use crate::blocks::test_block;
use crate::missing::find_missing;
use crate::net_places::NetPlaces;
use crate::running_measure::RunningMeasure;
use crate::stop::Stop;
use crate::taken::TakenNets;
use grid_graph::{Design, Ground, Kind};
use route_text::Blocks;
use std::alloc::Global;
use straight_runs::LineCounts;

/// The sums of all sets. Stops at the first reason against the blocks. Each block's runs are let go before the next is read.
pub(crate) fn sums_of<B: Blocks>(
    alloc: Global,
    design: &Design,
    grounds: &[Ground],
    blocks: B,
) -> Result<RunningMeasure, Stop>
    requires grounds { AreGrounds design.now.grid design.now.nets grounds.now }
    requires blocks { AreBlocks (B.list blocks) }
    ensures stops { StopsAt design.now (route_objections design.now (B.list blocks)) result }
    ensures sums { IfOk result (AreSumsOf design.now grounds.now (B.list blocks)) }
{
    let places = NetPlaces::of(alloc, design.nets.list())?;
    let walls = LineCounts::of(alloc, &design.grid, Kind::Wall)?;
    let choked = LineCounts::of(alloc, &design.grid, Kind::Choked)?;
    let mut taken = TakenNets::none(alloc, design)?;
    let mut sums = RunningMeasure::none(alloc, design.grid.size())?;
    for number in 0..blocks.count() {
        let block = test_block(alloc, design, &places, &walls, blocks, number, &mut taken)?;
        let net = &design.nets.list()[block.place];
        let over = grounds[block.place];
        let runs = block.runs.as_slice();
        sums.add(&design.grid, &choked, net.width, over, runs);
    }
    let taken = taken.nets.as_slice();
    find_missing(design, taken)?;
    Ok(sums)
}
