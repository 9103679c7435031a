//! All phases, one after another.

ghost use Rattle.std.specs.Prelude.{◌≡◌, ◌≤◌, ◌<◌, length, IfOk};
ghost use Rattle.std.specs.List.{range_with_len};
ghost use Rattle.grid_base.specs.Numbers.{vertices};
ghost use Rattle.grid_graph.specs.Grids.{entries, size_of};
ghost use Rattle.grid_graph.specs.Limits.{max_nets};
ghost use Rattle.grid_graph.specs.Grounds.{AreGrounds};
ghost use Rattle.edge_prices.specs.Limits.{IsBudget};
ghost use Rattle.edge_prices.specs.Vectors.{price_vector};
ghost use Rattle.routing_stages.specs.Limits.{max_workers, max_phases};
ghost use Rattle.routing_stages.specs.Settings.{AreSettings, workers_in_use};
ghost use Rattle.routing_stages.specs.Whole.{IsWholeShared};
ghost use Rattle.sharing_phases.specs.Histories.{IsRecordedRun};
ghost use Rattle.sharing_phases.specs.PhaseWords.{empty_sets, IsPhasePlan, IsRunSoFar};

use edge_prices::prices;
use grid_base::NoMemory;
use grid_graph::{Design, Ground};
use load_table::{LoadTable, Share};
use routing_passes::{Plan, route_parts};
use routing_stages::{Gate, Phases, Settings, Shared, Trees, write_shares};
use std::alloc::Global;
use std::thread::Threads;
use tree_set::Tree;

/// Every net gets a set in each phase, at prices of the loads that its worker read in a table which all share, with that
/// worker's own changes since. This is min-max resource sharing after Müller, Radke and Vygen, "Faster min-max resource sharing
/// in theory and practice" (2011).
///
/// The workers of a phase run side by side; where a thread can't be started, the caller does its work. Want of memory of one
/// worker is answered when all have ended.
pub fn share<R: Threads + Sync, G: Gate>(
    rt: &R,
    alloc: Global,
    design: &Design,
    grounds: &[Ground],
    settings: &Settings,
    gate: &G,
) -> Result<Shared, NoMemory>
    requires grounds { AreGrounds design.now.grid design.now.nets grounds.now }
    requires settings { AreSettings settings.now }
    ensures run { IfOk result (λ s. IsRecordedRun design.now
        (workers_in_use settings.now.workers (vertices (size_of design.now.grid))) settings.now.budget s.phases
        s.share.party.history) }
    ensures phases { IfOk result (λ s. length s.phases ≡ settings.now.phases) }
    ensures prices { IfOk result (λ s. s.prices.items ≡ price_vector design.now.grid s.loads.items 1 settings.now.budget) }
    ensures whole { IfOk result (λ s. IsWholeShared design.now s) }
{
    let words = 2 * design.grid.size().vertices() + 1;
    let plan = Plan {
        positions: all_positions(alloc, design.nets.list().len())?,
        scale: 1,
        workers: settings.workers_in_use(design.grid.size()),
        budget: settings.budget,
    };
    let (table, share, phases) = route_phases(
        rt,
        alloc,
        design,
        grounds,
        gate,
        &plan,
        settings.phases,
    )?;
    let mut loads = vec![in alloc; 0u64; words as usize]?;
    write_shares(&share, words, &mut loads);
    let mut list = vec![in alloc; 0u32; words as usize]?;
    prices(&design.grid, &loads, 1, settings.budget, &mut list);
    Ok(Shared {
        table,
        share,
        phases: Phases::of(phases),
        loads,
        prices: list,
    })
}

/// So many phases, one after another, with a table of their loads and its one share. Each is a pass over all nets, whose old
/// sets are empty.
fn route_phases<R: Threads + Sync, G: Gate>(
    rt: &R,
    alloc: Global,
    design: &Design,
    grounds: &[Ground],
    gate: &G,
    plan: &Plan,
    count: u32,
) -> Result<(LoadTable, Share, Vec<Trees>), NoMemory>
    requires grounds { AreGrounds design.now.grid design.now.nets grounds.now }
    requires plan { IsPhasePlan (length design.now.nets) plan.now }
    requires workers { (1 ≤ plan.now.workers) × (plan.now.workers ≤ max_workers) }
    requires count { count ≤ max_phases }
    requires budget { IsBudget plan.now.budget }
    ensures words { IfOk result (λ r. r.0.words ≡ entries design.now.grid) }
    ensures run { IfOk result (λ r. IsRunSoFar design.now plan.now.workers plan.now.budget r.0 r.1 r.2.items) }
    ensures count { IfOk result (λ r. length r.2.items ≡ count) }
{
    let (opened, mut share) = LoadTable::open(alloc, 2 * design.grid.size().vertices() + 1)?;
    let table = &opened;
    let mut phases = Vec::new(alloc);
    let none = no_sets(alloc, design.nets.list().len())?;
    for _ in 0..count {
        let (next, sets) = route_parts(
            rt,
            design,
            grounds,
            table,
            phases.as_slice(),
            none.as_slice(),
            plan,
            gate,
            share,
            0,
            plan.workers,
        )?;
        share = next;
        phases.push(Trees::of(sets))?;
    }
    Ok((opened, share, phases))
}

/// The positions of so many nets, in rising order.
fn all_positions(alloc: Global, nets: usize) -> Result<Vec<u32>, NoMemory>
    requires few { nets ≤ max_nets }
    ensures positions { IfOk result (λ positions. positions.items ≡ range_with_len 0 nets) }
{
    let mut positions = Vec::new(alloc);
    for position in 0..nets {
        positions.push(position as u32)?;
    }
    Ok(positions)
}

/// An empty set for each of so many nets.
fn no_sets(alloc: Global, nets: usize) -> Result<Vec<Tree>, NoMemory>
    ensures sets { IfOk result (λ sets. sets.items ≡ empty_sets nets) }
{
    let mut sets = Vec::new(alloc);
    for _ in 0..nets {
        sets.push(Tree::empty(alloc))?;
    }
    Ok(sets)
}
