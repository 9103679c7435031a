//! The workers of a pass, side by side.

ghost use Rattle.std.specs.Prelude.{◌≡◌, ◌+◌, ◌≤◌, ◌<◌, IfOk};
ghost use Rattle.std.specs.Thread.{IsSync};
ghost use Rattle.routing_passes.specs.Passes.{pass_in, pass_of, AreHalves, IsPass, MayTakeTurns, ServesTurns};
ghost use Rattle.routing_passes.specs.PassTurns.{HadTurns};

use crate::loads::loads_of;
use crate::part::route_part;
use crate::pass_input::PassInput;
use crate::plan::Plan;
use grid_base::NoMemory;
use grid_graph::{Design, Ground};
use load_table::{LoadTable, Share};
use routing_stages::{Gate, Trees};
use std::thread::{Threads, join};
use tree_set::Tree;

/// The allotment that each worker but the first gets: no word of its share ever has more, whatever it routes.
const LEAST_ALLOTMENT: u64 = 1 << 58;

/// The parts of the workers from one up to another, side by side: a share is split, both halves of the workers run, and
/// their shares are joined. `earlier` are sets of all nets that stay, and `before` those that they have beside these; the nets
/// of the plan get new sets in place of those in `before`. Want of memory of one worker is answered when all have ended.
pub fn route_parts<R: Threads + Sync, G: Gate>(
    rt: &R,
    design: &Design,
    grounds: &[Ground],
    table: &LoadTable,
    earlier: &[Trees],
    before: &[Tree],
    plan: &Plan,
    gate: &G,
    mut share: Share,
    first: u32,
    last: u32,
) -> Result<(Share, Vec<Tree>), NoMemory>
    requires pass { IsPass (pass_of design.now grounds.now table.now earlier.now before.now plan.now) }
    requires range { (first < last) × (last ≤ plan.now.workers) }
    requires share { ServesTurns (pass_of design.now grounds.now table.now earlier.now before.now plan.now) first last share }
    ensures turns { IfOk result (λ r. HadTurns (pass_of design.now grounds.now table.now earlier.now before.now plan.now)
        first last share r.0 r.1.items) }
{
    let input = PassInput {
        design,
        grounds,
        table,
        earlier,
        before,
        plan,
    };
    if last - first == 1 {
        return route_part(input, gate, share, first);
    }
    let middle = first + (last - first) / 2;
    let given = split_for(input, &mut share, first, middle, last)?;
    let (left, right) = join(
        rt,
        move || -> Result<(Share, Vec<Tree>), NoMemory>
            requires { IsSync R.row × MayTakeTurns (pass_of design.now grounds.now table.now earlier.now before.now plan.now)
                first middle share }
            ensures { IfOk result (λ r. HadTurns (pass_of design.entry.now grounds.entry.now table.entry.now
                earlier.entry.now before.entry.now plan.entry.now) first middle share r.0 r.1.items) }
        {
            route_parts(
                rt, design, grounds, table, earlier, before, plan, gate, share, first, middle,
            )
        },
        move || -> Result<(Share, Vec<Tree>), NoMemory>
            requires { IsSync R.row × MayTakeTurns (pass_of design.now grounds.now table.now earlier.now before.now plan.now)
                middle last given }
            ensures { IfOk result (λ r. HadTurns (pass_of design.entry.now grounds.entry.now table.entry.now
                earlier.entry.now before.entry.now plan.entry.now) middle last given r.0 r.1.items) }
        {
            route_parts(
                rt, design, grounds, table, earlier, before, plan, gate, given, middle, last,
            )
        },
    );
    let (mut share, mut sets) = left?;
    let (behind, mut more) = right?;
    share.join(table, behind);
    sets.append(&mut more)?;
    Ok((share, sets))
}

/// Splits off a share for the workers from the middle one on: it has the load of all sets of their nets.
fn split_for(
    input: PassInput<'_>,
    share: &mut Share,
    first: u32,
    middle: u32,
    last: u32,
) -> Result<Share, NoMemory>
    requires pass { IsPass (pass_in input) }
    requires range { (first < middle) × (middle < last) × (last ≤ input.plan.now.workers) }
    requires share { ServesTurns (pass_in input) first last share.old }
    ensures halves { IfOk result (λ other. AreHalves (pass_in input.entry) first middle last share.old share.new other) }
{
    let plan = input.plan;
    let positions = plan.positions.as_slice();
    let (from, to) = plan.turns_of(middle, last);
    let given = loads_of(
        *plan.positions.allocator(),
        input.design,
        input.earlier,
        input.before,
        positions,
        from,
        to,
    )?;
    let allotment = u64::from(last - middle) * LEAST_ALLOTMENT;
    let other = share.split(input.table, allotment, &given)?;
    Ok(other)
}
