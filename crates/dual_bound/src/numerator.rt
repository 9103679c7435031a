//! The sum of the net bounds of a design.

ghost use Rattle.std.specs.Prelude.{◌≤◌, ◌<◌, IfOk};
ghost use Rattle.std.specs.List.{sum};
ghost use Rattle.grid_base.specs.Limits.{max_vertices};
ghost use Rattle.fractions.specs.Limits.{numerator_limit};
ghost use Rattle.dual_bound.specs.Limits.{max_parts};
ghost use Rattle.dual_bound.specs.Parts.{priced_nets, HasGrounds, IsSumOver, IsSumOfPart};

use crate::priced::Priced;
use even_parts::part_start;
use grid_base::NoMemory;
use label_search::MAX_LABELLED;
use rayon::prelude::*;
use std::alloc::Global;
use std::thread::Threads;

/// The nets are divided in at most so many parts.
const MAX_PARTS: u32 = 8;

/// In how many parts the nets are divided, each of which has labels for so many vertices.
fn part_count(vertices: u32) -> usize
    requires some { 1 ≤ vertices }
    requires most { vertices ≤ max_vertices }
    ensures some { 1 ≤ result }
    ensures most { result ≤ max_parts }
{
    (MAX_LABELLED / vertices).min(MAX_PARTS) as usize
}

/// The sum of the net bounds of a part.
fn sum_of_part(alloc: Global, priced: &Priced, parts: usize, part: usize) -> Result<u128, NoMemory>
    requires grounds { HasGrounds priced.now }
    requires parts { parts ≤ max_parts }
    requires part { part < parts }
    ensures { IfOk result (IsSumOfPart priced.now parts part) }
{
    let nets = priced.design.nets.list().len();
    let from = part_start(parts, nets, part);
    let to = part_start(parts, nets, part + 1);
    priced.sum_between(alloc, from, to)
}

/// The sums of the net bounds of the parts, from as many threads as `rayon` takes.
fn sums_of_parts<R: Threads + Sync>(
    rt: &R,
    alloc: Global,
    priced: &Priced,
    parts: usize,
) -> Result<Vec<u128>, NoMemory>
    requires grounds { HasGrounds priced.now }
    requires some { 1 ≤ parts }
    requires most { parts ≤ max_parts }
    ensures { IfOk result (λ sums. IsSumOver priced.now (priced_nets priced.now) (sum sums.items) × (sum sums.items < numerator_limit)) }
{
    let sums: Result<Vec<u128>, NoMemory> = (0..parts)
        .into_par_iter()
        .with_min_len(1)
        .map(
            |part: usize| -> Result<u128, NoMemory>
                requires { HasGrounds priced.now × (parts ≤ max_parts) × (part < parts) }
                ensures { IfOk result (IsSumOfPart priced.entry.now parts part) }
            { sum_of_part(alloc, priced, parts, part) },
        )
        .collect(rt, alloc)?;
    sums
}

/// The sum of the net bounds of all nets.
pub(crate) fn sum_of_bounds<R: Threads + Sync>(
    rt: &R,
    alloc: Global,
    priced: &Priced,
) -> Result<u128, NoMemory>
    requires { HasGrounds priced.now }
    ensures { IfOk result (λ total. IsSumOver priced.now (priced_nets priced.now) total × (total < numerator_limit)) }
{
    let parts = part_count(priced.labelled());
    let sums = sums_of_parts(rt, alloc, priced, parts)?;
    Ok(sums.iter().copied().sum())
}
