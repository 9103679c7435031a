//! A turn of a climb: a step for each net, in several threads.

ghost use Rattle.std.specs.Prelude.{◌≡◌, ◌≤◌, ◌<◌, IfOk};
ghost use Rattle.std.specs.List.{flat_map};
ghost use Rattle.grid_base.specs.Limits.{max_vertices};
ghost use Rattle.bound_climb.specs.ClimbTurns.{IsClimbSight, AreStepsSeen, AreStepsOfPart, max_climb_parts, seen_nets};

use crate::climb_sight::ClimbSight;
use even_parts::part_start;
use grid_base::NoMemory;
use label_search::MAX_LABELLED;
use rayon::prelude::*;
use std::alloc::Global;
use std::thread::Threads;
use steiner_exact::TreeLabels;
use tree_set::Tree;

/// The nets are divided in at most so many parts.
const MAX_PARTS: u32 = 8;

/// In how many parts the nets are divided, each of which has labels for so many vertices.
fn part_count(vertices: u32) -> usize
    requires some { 1 ≤ vertices }
    requires most { vertices ≤ max_vertices }
    ensures some { 1 ≤ result }
    ensures most { result ≤ max_climb_parts }
{
    (MAX_LABELLED / vertices).min(MAX_PARTS) as usize
}

/// A step for each net of a part. Labels are made once, and only where there is a net.
fn steps_of_part(
    alloc: Global,
    sight: &ClimbSight,
    parts: usize,
    part: usize,
) -> Result<Vec<Tree>, NoMemory>
    requires sight { IsClimbSight sight.now }
    requires parts { parts ≤ max_climb_parts }
    requires part { part < parts }
    ensures { IfOk result (λ trees. AreStepsOfPart sight.now parts part trees.items) }
{
    let nets = sight.design.nets.list().len();
    let from = part_start(parts, nets, part);
    let to = part_start(parts, nets, part + 1);
    let mut trees = Vec::with_capacity(alloc, to - from)?;
    if from == to {
        return Ok(trees);
    }
    let mut labels = TreeLabels::new(alloc, sight.design.grid.size())?;
    for net in from..to {
        trees.push(sight.step(alloc, net, &mut labels)?)?;
    }
    Ok(trees)
}

/// A step for each net, part after part, from as many threads as `rayon` takes.
fn steps_of_parts<R: Threads + Sync>(
    rt: &R,
    alloc: Global,
    sight: &ClimbSight,
    parts: usize,
) -> Result<Vec<Vec<Tree>>, NoMemory>
    requires sight { IsClimbSight sight.now }
    requires some { 1 ≤ parts }
    requires most { parts ≤ max_climb_parts }
    ensures { IfOk result (λ found. AreStepsSeen sight.now (seen_nets sight.now) (flat_map (λ trees. trees.items) found.items)) }
{
    let found: Result<Vec<Vec<Tree>>, NoMemory> = (0..parts)
        .into_par_iter()
        .with_min_len(1)
        .map(
            |part: usize| -> Result<Vec<Tree>, NoMemory>
                requires { IsClimbSight sight.now × (parts ≤ max_climb_parts) × (part < parts) }
                ensures { IfOk result (λ trees. AreStepsOfPart sight.entry.now parts part trees.items) }
            { steps_of_part(alloc, sight, parts, part) },
        )
        .collect(rt, alloc)?;
    found
}

/// The sets of all parts in one list.
fn joined(alloc: Global, parts: Vec<Vec<Tree>>, nets: usize) -> Result<Vec<Tree>, NoMemory>
    ensures { IfOk result (λ trees. trees.items ≡ flat_map (λ some. some.items) parts.items) }
{
    let mut trees = Vec::with_capacity(alloc, nets)?;
    for mut part in parts {
        trees.append(&mut part)?;
    }
    Ok(trees)
}

/// A step for each net. All see the same prices, so what is found doesn't depend on how many threads there are.
pub(crate) fn steps_of_turn<R: Threads + Sync>(
    rt: &R,
    alloc: Global,
    sight: &ClimbSight,
) -> Result<Vec<Tree>, NoMemory>
    requires sight { IsClimbSight sight.now }
    ensures steps { IfOk result (λ trees. AreStepsSeen sight.now (seen_nets sight.now) trees.items) }
{
    let parts = part_count(sight.design.grid.size().vertices());
    let found = steps_of_parts(rt, alloc, sight, parts)?;
    joined(alloc, found, sight.design.nets.list().len())
}
