//! Rounds, one after another.

ghost use Rattle.std.specs.Prelude.{◌≡◌, ◌≤◌, ◌<◌, List, length, All, AllPairs, IfOk};
ghost use Rattle.atomic_table.specs.Seated.{TableId};
ghost use Rattle.grid_base.specs.declared.piece.Piece.{Piece};
ghost use Rattle.grid_graph.specs.Grids.{entries};
ghost use Rattle.grid_graph.specs.Grounds.{AreGrounds};
ghost use Rattle.edge_prices.specs.Limits.{IsBudget};
ghost use Rattle.tree_set.specs.Loads.{load_list};
ghost use Rattle.tree_set.specs.Routings.{IsRouting};
ghost use Rattle.routing_stages.specs.Limits.{max_workers};
ghost use Rattle.sharing_runs.specs.RepairRuns.{routing_overflow};
ghost use Rattle.ripup_repair.specs.RoundsDone.{AreRoundsDone, HasLoadOf, IsRoundDone};
ghost use Rattle.ripup_repair.specs.Exchanged.{with_elements};

use crate::exchange::exchange;
use crate::left::Left;
use crate::overflow::overflow_of;
use crate::overfull::nets_to_repair;
use crate::repaired::Repaired;
use crate::replaced::Replaced;
use crate::routing::Routing;
use grid_base::NoMemory;
use grid_graph::{Design, Ground};
use load_core::WHOLE_ALLOTMENT;
use load_table::Share;
use routing_passes::{Plan, route_parts};
use routing_stages::{Gate, Trees, write_shares};
use std::alloc::Global;
use std::thread::Threads;

/// The scale of the prices in repair.
const REPAIR_SCALE: u32 = 16;

/// At most so many rounds, while there is overflow. Where one of them has less than the least so far, the first of least
/// overflow is what sets and loads are left as; else both are left as they were.
pub(crate) fn repair_rounds<R: Threads + Sync, G: Gate>(
    rt: &R,
    alloc: Global,
    design: &Design,
    grounds: &[Ground],
    gate: &G,
    routing: Routing,
    left: Left,
) -> Result<Repaired, NoMemory>
    requires grounds { AreGrounds design.now.grid design.now.nets grounds.now }
    requires words { routing.table.words ≡ entries design.now.grid }
    requires workers { (1 ≤ left.workers) × (left.workers ≤ max_workers) }
    requires budget { IsBudget left.budget }
    requires routing { IsRouting design.now.grid design.now.nets routing.trees.items }
    requires share { HasLoadOf design.now routing.table routing.trees.items routing.share }
    requires overflow { left.overflow ≡ routing_overflow design.now routing.trees.items }
    ensures done { IfOk result (λ r. AreRoundsDone design.now left routing r) }
    ensures long { IfOk result (λ r. length r.routing.trees.items ≡ length routing.trees.items) }
{
    if left.overflow == 0 || left.rounds == 0 {
        return Ok(Repaired {
            routing,
            rounds: 0,
            least: left.least,
        });
    }
    let (mut routing, replaced) = repair_round(rt, alloc, design, grounds, gate, routing, left)?;
    let overflow = keep_if_less(
        alloc,
        design,
        &routing.share,
        left.least,
        &mut routing.loads,
    )?;
    let next = Left {
        workers: left.workers,
        budget: left.budget,
        rounds: left.rounds - 1,
        overflow,
        least: left.least.min(overflow),
    };
    let later = repair_rounds(rt, alloc, design, grounds, gate, routing, next)?;
    let Repaired {
        routing,
        rounds,
        least,
    } = later;
    let routing = replaced.put_back_unless(least < left.least, routing);
    Ok(Repaired {
        routing,
        rounds: rounds + 1,
        least,
    })
}

/// The overflow by the loads that the share has. Where it is less than the least so far, these loads are kept.
fn keep_if_less(
    alloc: Global,
    design: &Design,
    share: &Share,
    least: u64,
    loads: &mut Vec<u64>,
) -> Result<u64, NoMemory>
    requires words { share.now.table.words ≡ entries design.now.grid }
    requires routed { (table : TableId) × (trees : List (List Piece)) × HasLoadOf design.now table trees share.now }
    ensures overflow { IfOk result (λ over. (table : TableId) (trees : List (List Piece))
        → HasLoadOf design.now table trees share.now → (over ≡ routing_overflow design.now trees)
        × (over < least → loads.new.items ≡ load_list design.now.grid design.now.nets trees)) }
    ensures kept { IfOk result (λ over. least ≤ over → loads.new.items ≡ loads.old.items) }
{
    let words = 2 * design.grid.size().vertices() + 1;
    let mut now = vec![in alloc; 0; words as usize]?;
    write_shares(share, words, now.as_mut_slice());
    let overflow = overflow_of(design, &now);
    if overflow < least {
        *loads = now;
    }
    Ok(overflow)
}

/// One round: the nets that are to be repaired get new sets.
fn repair_round<R: Threads + Sync, G: Gate>(
    rt: &R,
    alloc: Global,
    design: &Design,
    grounds: &[Ground],
    gate: &G,
    routing: Routing,
    left: Left,
) -> Result<(Routing, Replaced), NoMemory>
    requires grounds { AreGrounds design.now.grid design.now.nets grounds.now }
    requires words { routing.table.words ≡ entries design.now.grid }
    requires workers { (1 ≤ left.workers) × (left.workers ≤ max_workers) }
    requires budget { IsBudget left.budget }
    requires routing { IsRouting design.now.grid design.now.nets routing.trees.items }
    requires share { HasLoadOf design.now routing.table routing.trees.items routing.share }
    ensures done { IfOk result (λ r. IsRoundDone design.now left.workers left.budget routing.table routing.share r.0.share
        routing.trees.items r.0.trees.items) }
    ensures kept { IfOk result (λ r. (r.0.table ≡ routing.table) × (r.0.loads ≡ routing.loads)) }
    ensures positions { IfOk result (λ r. (All (λ position. position < length r.0.trees.items) r.1.positions.items)
        × (AllPairs (λ position later. position < later) r.1.positions.items)) }
    ensures sets { IfOk result (λ r. length r.1.sets.items ≡ length r.1.positions.items) }
    ensures back { IfOk result (λ r. with_elements r.0.trees.items r.1.positions.items r.1.sets.items ≡ routing.trees.items) }
{
    let Routing {
        table,
        share,
        mut trees,
        loads,
    } = routing;
    let before = trees.as_slice();
    let positions = nets_to_repair(alloc, design, &share, before)?;
    // It is the one share of the table; by this call the proof knows that it has an entry for each word.
    prove_eq!(share.allotment(), WHOLE_ALLOTMENT);
    let plan = Plan {
        positions,
        scale: REPAIR_SCALE,
        workers: left.workers,
        budget: left.budget,
    };
    let others: Vec<Trees> = Vec::new(alloc);
    let (share, mut sets) = route_parts(
        rt,
        design,
        grounds,
        &table,
        others.as_slice(),
        before,
        &plan,
        gate,
        share,
        0,
        left.workers,
    )?;
    exchange(&mut trees, &plan.positions, &mut sets);
    let routing = Routing {
        table,
        share,
        trees,
        loads,
    };
    let positions = plan.positions;
    Ok((routing, Replaced { positions, sets }))
}
