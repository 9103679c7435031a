//! Runs made disjoint and as long as they can be.

ghost use Rattle.std.specs.Prelude.{◌≡◌, All, IfOk, map};
ghost use Rattle.std.specs.List.Sorted.{IsNonDecreasingBy, IsPermutation};
ghost use Rattle.straight_runs.specs.Merging.{AreMerged, IsTogether};
ghost use Rattle.straight_runs.specs.Runs.{IsStraightRun, numbered, run_number};

use crate::run::Run;
use grid_base::{NoMemory, Size};
use std::alloc::Global;

/// How many pieces a run has together with one whose pieces overlap or adjoin its own, and which doesn't begin before it.
fn count_together(size: Size, run: Run, next: Run) -> Option<u32>
    requires run { IsStraightRun size run }
    requires next { IsStraightRun size next }
    ensures { IsTogether size run next result }
{
    if next.direction != run.direction || next.first.0 < run.first.0 {
        return None;
    }
    let rise = run.direction.rise(size);
    let apart = next.first.0 - run.first.0;
    if apart % rise != 0 || apart / rise > run.count {
        return None;
    }
    Some(run.count.max(apart / rise + next.count))
}

/// Joins neighbours in a list of runs that are sorted by line and place.
fn join_neighbours(alloc: Global, size: Size, sorted: &[Run]) -> Result<Vec<Run>, NoMemory>
    requires runs { All (IsStraightRun size) sorted.now }
    requires sorted { IsNonDecreasingBy (run_number size) sorted.now }
    ensures { IfOk result (λ kept. AreMerged size sorted.now kept.items) }
{
    let mut kept = Vec::with_capacity(alloc, sorted.len())?;
    let Some(first) = sorted.first() else {
        return Ok(kept);
    };
    let mut last = *first;
    for i in 1..sorted.len() {
        match count_together(size, last, sorted[i]) {
            Some(count) => last.count = count,
            None => {
                kept.push(last)?;
                last = sorted[i];
            }
        }
    }
    kept.push(last)?;
    Ok(kept)
}

/// Runs beside their numbers, each of which takes three divisions.
fn numbered_runs(alloc: Global, size: Size, runs: &[Run]) -> Result<Vec<(u64, Run)>, NoMemory>
    ensures { IfOk result (λ pairs. pairs.items ≡ map (numbered size) runs.now) }
{
    let mut pairs = Vec::with_capacity(alloc, runs.len())?;
    for run in runs {
        pairs.push((run.direction.line_number(size, run.first), *run))?;
    }
    Ok(pairs)
}

/// The runs of such pairs.
fn runs_of(alloc: Global, pairs: &[(u64, Run)]) -> Result<Vec<Run>, NoMemory>
    ensures { IfOk result (λ runs. runs.items ≡ map (λ pair. pair.1) pairs.now) }
{
    let mut runs = Vec::with_capacity(alloc, pairs.len())?;
    for pair in pairs {
        runs.push(pair.1)?;
    }
    Ok(runs)
}

/// Runs sorted by line and place. The number of each is found once.
fn in_order(alloc: Global, size: Size, runs: Vec<Run>) -> Result<Vec<Run>, NoMemory>
    ensures same { IfOk result (λ sorted. IsPermutation runs.items sorted.items) }
    ensures sorted { IfOk result (λ sorted. IsNonDecreasingBy (run_number size) sorted.items) }
{
    let mut pairs = numbered_runs(alloc, size, runs.as_slice())?;
    pairs.sort_unstable_by_key(|pair| pair.0);
    runs_of(alloc, pairs.as_slice())
}

/// Runs of the same pieces, none of them twice, as long as can be.
///
/// Takes about `n log n` steps for n runs, however long they are.
pub fn merged(alloc: Global, size: Size, runs: Vec<Run>) -> Result<Vec<Run>, NoMemory>
    requires runs { All (IsStraightRun size) runs.items }
    ensures { IfOk result (λ kept. AreMerged size runs.items kept.items) }
{
    let sorted = in_order(alloc, size, runs)?;
    join_neighbours(alloc, size, sorted.as_slice())
}
