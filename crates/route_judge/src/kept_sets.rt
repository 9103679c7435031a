//! Judges routes and keeps their sets.

ghost use Rattle.std.specs.Prelude.{IfOk};
ghost use Rattle.route_judge.specs.Answers.{IfKept, reason_against_sets};
ghost use Rattle.route_judge.specs.Limits.{AreBlocks};
ghost use Rattle.route_judge.specs.NetSets.{AreSetsOf, AreJoining};
ghost use Rattle.route_judge.specs.Objections.{Finds};
ghost use Rattle.route_judge.specs.Orders.{route_objections};
ghost use Rattle.route_judge.specs.Stops.{StopsAt};

use crate::checked_sets::CheckedSets;
use crate::missing::find_missing;
use crate::net_sets::sets_of;
use crate::stop::Stop;
use grid_base::NoMemory;
use grid_graph::Design;
use route_text::Blocks;
use std::alloc::Global;
use tree_set::Tree;

/// The sets of routes. Stops at the first reason against them.
fn sets_of_routes<B: Blocks>(alloc: Global, design: &Design, blocks: B) -> Result<Vec<Tree>, Stop>
    requires { AreBlocks (B.list blocks) }
    ensures stops { StopsAt design.now (route_objections design.now (B.list blocks)) result }
    ensures sets { IfOk result (λ trees. AreSetsOf design.now (B.list blocks) trees.items) }
    ensures joining { IfOk result (λ trees. AreJoining design.now trees.items) }
{
    let sets = sets_of(alloc, design, blocks)?;
    find_missing(design, sets.taken.nets.as_slice())?;
    Ok(sets.trees)
}

/// Whether the blocks are routes of the design, as `judge_routes` says, and the set that they give each net, instead of what they
/// measure. Each block is gone through once.
///
/// It takes memory and time for each piece, however few segments there are.
pub fn judge_sets<B: Blocks>(
    alloc: Global,
    design: &Design,
    blocks: B,
) -> Result<CheckedSets, NoMemory>
    requires { AreBlocks (B.list blocks) }
    ensures first { IfOk result (λ answer. Finds design.now (route_objections design.now (B.list blocks)) (reason_against_sets answer)) }
    ensures sets { IfOk result (λ answer. IfKept answer (λ trees. AreSetsOf design.now (B.list blocks) trees)) }
    ensures joining { IfOk result (λ answer. IfKept answer (λ trees. AreJoining design.now trees)) }
{
    match sets_of_routes(alloc, design, blocks) {
        Ok(trees) => Ok(CheckedSets::Yes(trees)),
        Err(Stop::Refused(reason)) => Ok(CheckedSets::No(reason)),
        Err(Stop::NoMemory) => Err(NoMemory),
    }
}
