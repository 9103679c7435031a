//! The searches of a batch, by workers that run side by side.

ghost use Rattle.std.specs.Prelude.{◌<◌, IfOk, length};
ghost use Rattle.std.specs.Thread.{IsSync};
ghost use Rattle.negotiation.specs.Searches.{AreFindings, AreFound, ArePlaces, IsSight};

use crate::finding::Finding;
use crate::gathering::in_order;
use crate::sight::Sight;
use grid_base::NoMemory;
use std::alloc::Global;
use std::sync::atomic::{AtomicUsize, Ordering};
use std::thread::{Threads, join};
use tree_growth::Growth;
use tree_set::Tree;

/// A worker of its own is worth its start for so much work.
const LEAST_RUN: u64 = 100;

/// New sets for these nets, in their order, by one worker. All searches see the same.
fn search_in_turn(
    alloc: Global,
    sight: Sight<'_>,
    nets: &[u32],
    growth: &mut Growth,
) -> Result<Vec<Option<Tree>>, NoMemory>
    requires sight { IsSight sight }
    requires nets { ArePlaces sight.design.now nets.now }
    ensures found { IfOk result (λ found. AreFound sight.entry.design.now nets.now found.items) }
{
    let mut found = Vec::with_capacity(alloc, nets.len())?;
    for net in nets {
        found.push(sight.search(*net, growth)?)?;
    }
    Ok(found)
}

/// The same by as many workers as there are growths, as far as there is work for them. Each takes the next net when it is done with
/// one, since some searches take much longer than most. What is found doesn't depend on who takes which net, nor on how many there are.
pub(crate) fn search_batch<R: Threads + Sync>(
    rt: &R,
    alloc: Global,
    sight: Sight<'_>,
    nets: &[u32],
    growths: &mut [Growth],
) -> Result<Vec<Option<Tree>>, NoMemory>
    requires sight { IsSight sight }
    requires nets { ArePlaces sight.design.now nets.now }
    requires workers { 0 < length growths.old }
    ensures found { IfOk result (λ found. AreFound sight.entry.design.now nets.now found.items) }
{
    let most = nets.len().min(growths.len());
    let workers = (most as u64).min(sight.work_on(nets) / LEAST_RUN) as usize;
    if workers < 2 {
        return search_in_turn(alloc, sight, nets, &mut growths[0]);
    }
    let turns = AtomicUsize::new(0);
    let (busy, _) = growths.split_at_mut(workers);
    let findings = search_side_by_side(rt, alloc, sight, nets, &turns, busy)?;
    in_order(alloc, sight, nets, findings, &mut busy[0])
}

/// Workers, one for each growth, that search for nets until none is left. Which place is the next one, `turns` says.
fn search_side_by_side<R: Threads + Sync>(
    rt: &R,
    alloc: Global,
    sight: Sight<'_>,
    nets: &[u32],
    turns: &AtomicUsize,
    growths: &mut [Growth],
) -> Result<Vec<Finding>, NoMemory>
    requires sight { IsSight sight }
    requires nets { ArePlaces sight.design.now nets.now }
    requires workers { 0 < length growths.old }
    ensures findings { IfOk result (λ findings. AreFindings sight.entry.design.now nets.now findings.items) }
{
    if growths.len() == 1 {
        return search_by_turns(alloc, sight, nets, turns, &mut growths[0]);
    }
    let (few, more) = growths.split_at_mut(growths.len() / 2);
    let (left, right) = join(
        rt,
        move || -> Result<Vec<Finding>, NoMemory>
            requires { IsSync R.row × IsSight sight × ArePlaces sight.design.now nets.now × (0 < length few.now) }
            ensures { IfOk result (λ findings. AreFindings sight.entry.design.now nets.entry.now findings.items) }
        { search_side_by_side(rt, alloc, sight, nets, turns, few) },
        move || -> Result<Vec<Finding>, NoMemory>
            requires { IsSync R.row × IsSight sight × ArePlaces sight.design.now nets.now × (0 < length more.now) }
            ensures { IfOk result (λ findings. AreFindings sight.entry.design.now nets.entry.now findings.items) }
        { search_side_by_side(rt, alloc, sight, nets, turns, more) },
    );
    let mut findings = left?;
    let mut others = right?;
    findings.append(&mut others)?;
    Ok(findings)
}

/// One worker, which takes the next net as long as there is one.
fn search_by_turns(
    alloc: Global,
    sight: Sight<'_>,
    nets: &[u32],
    turns: &AtomicUsize,
    growth: &mut Growth,
) -> Result<Vec<Finding>, NoMemory>
    requires sight { IsSight sight }
    requires nets { ArePlaces sight.design.now nets.now }
    ensures findings { IfOk result (λ findings. AreFindings sight.entry.design.now nets.now findings.items) }
{
    let mut findings = Vec::new(alloc);
    for _ in 0..nets.len() {
        let place = turns.fetch_add(1, Ordering::SeqCst);
        if place >= nets.len() {
            return Ok(findings);
        }
        let found = sight.search(nets[place], growth)?;
        findings.push(Finding { place, found })?;
    }
    Ok(findings)
}
