//! Judges routes.

ghost use Rattle.std.specs.Prelude.{◌≡◌, ◌*◌, IfOk, None, length};
ghost use Rattle.grid_base.specs.Numbers.{vertices};
ghost use Rattle.grid_graph.specs.Grids.{size_of};
ghost use Rattle.grid_graph.specs.Grounds.{AreGrounds};
ghost use Rattle.route_judge.specs.Answers.{reason_against, IfAccepted};
ghost use Rattle.route_judge.specs.Limits.{AreBlocks};
ghost use Rattle.route_judge.specs.Measured.{AreMeasured};
ghost use Rattle.route_judge.specs.NetLoads.{AreLoadsOf};
ghost use Rattle.route_judge.specs.NetSets.{AreSetsOf, AreJoining};
ghost use Rattle.route_judge.specs.Objections.{Finds};
ghost use Rattle.route_judge.specs.Orders.{route_objections, AreRoutes};
ghost use Rattle.route_judge.specs.Stops.{StopsAt};

use crate::checked::Checked;
use crate::measured::Measured;
use crate::net_sets::sets_of;
use crate::stop::Stop;
use crate::summing::sums_of;
use grid_base::NoMemory;
use grid_graph::{Design, Ground};
use route_text::Blocks;
use std::alloc::Global;
use tree_set::{Tree, measure_of_loads};

/// Measures routes. Stops at the first reason against them.
pub(crate) fn measure_routes<B: Blocks>(
    alloc: Global,
    design: &Design,
    grounds: &[Ground],
    blocks: B,
) -> Result<Measured, Stop>
    requires grounds { AreGrounds design.now.grid design.now.nets grounds.now }
    requires blocks { AreBlocks (B.list blocks) }
    ensures stops { StopsAt design.now (route_objections design.now (B.list blocks)) result }
    ensures measured { IfOk result (λ m. AreMeasured design.now grounds.now (B.list blocks) None m.measure m.beyond) }
{
    let sums = sums_of(alloc, design, grounds, blocks)?;
    let loads = sums.loads.finish();
    Ok(Measured {
        measure: measure_of_loads(&design.grid, loads.as_slice(), sums.wirelength),
        beyond: sums.beyond,
    })
}

/// Whether the blocks are routes of the design: each block is of a net of its own, and its pieces join the net's terminals
/// inside the grid and without walls; and each net with two or more terminals has a block.
///
/// A set may use choked edges that are outside its net's ground. The answer counts the nets whose sets do.
///
/// Takes about `n log n` steps for n nets, segments and terminals, however long the segments are and however often they
/// overlap, and a few passes over the grid. Where a block leaves its net's terminals apart, its pieces are gone through one by
/// one, and that ends the work.
pub fn judge_routes<B: Blocks>(
    alloc: Global,
    design: &Design,
    grounds: &[Ground],
    blocks: B,
) -> Result<Checked, NoMemory>
    requires grounds { AreGrounds design.now.grid design.now.nets grounds.now }
    requires blocks { AreBlocks (B.list blocks) }
    ensures first { IfOk result (λ answer. Finds design.now (route_objections design.now (B.list blocks)) (reason_against answer)) }
    ensures measured { IfOk result (λ answer. IfAccepted answer (AreMeasured design.now grounds.now (B.list blocks) None)) }
{
    match measure_routes(alloc, design, grounds, blocks) {
        Ok(Measured { measure, beyond }) => Ok(Checked::Yes { measure, beyond }),
        Err(Stop::Refused(reason)) => Ok(Checked::No(reason)),
        Err(Stop::NoMemory) => Err(NoMemory),
    }
}

/// The loads of all edges, one per edge number, by the sets that blocks give the nets. They have to be routes of the design.
pub fn loads_of<B: Blocks>(
    alloc: Global,
    design: &Design,
    grounds: &[Ground],
    blocks: B,
) -> Result<Vec<u64>, NoMemory>
    requires grounds { AreGrounds design.now.grid design.now.nets grounds.now }
    requires blocks { AreBlocks (B.list blocks) }
    requires routes { AreRoutes design.now (B.list blocks) }
    ensures long { IfOk result (λ loads. length loads.items ≡ 2 * vertices (size_of design.now.grid)) }
    ensures loads { IfOk result (λ loads. AreLoadsOf design.now (B.list blocks) loads.items) }
{
    match sums_of(alloc, design, grounds, blocks) {
        Ok(sums) => Ok(sums.loads.finish()),
        Err(Stop::NoMemory) => Err(NoMemory),
        Err(Stop::Refused(_)) => unreachable!(),
    }
}

/// The set of each net, in file order, of blocks that are routes of the design: the pieces of its block, or none where it has
/// no block. It takes memory and time for each piece, however few segments there are.
pub fn trees_of<B: Blocks>(alloc: Global, design: &Design, blocks: B) -> Result<Vec<Tree>, NoMemory>
    requires blocks { AreBlocks (B.list blocks) }
    requires routes { AreRoutes design.now (B.list blocks) }
    ensures sets { IfOk result (λ trees. AreSetsOf design.now (B.list blocks) trees.items) }
    ensures joining { IfOk result (λ trees. AreJoining design.now trees.items) }
{
    match sets_of(alloc, design, blocks) {
        Ok(sets) => Ok(sets.trees),
        Err(Stop::NoMemory) => Err(NoMemory),
        Err(Stop::Refused(_)) => unreachable!(),
    }
}
