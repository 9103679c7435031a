//! The turns of one worker in a pass.

ghost use Rattle.std.specs.Prelude.{◌≡◌, ◌+◌, ◌<◌, true, false, length, IfOk};
ghost use Rattle.price_workers.specs.Workers.{WorksOn, KeepsWork, IsUnchanged};
ghost use Rattle.routing_passes.specs.Passes.{pass_in, HasRead, IsPass, ServesTurns};
ghost use Rattle.routing_passes.specs.PassTurns.{HadTurns};

use crate::old_sets::copies;
use crate::pass_input::PassInput;
use grid_base::NoMemory;
use grid_graph::Design;
use load_table::{LoadTable, Share};
use price_workers::Worker;
use routing_stages::Gate;
use tree_set::Tree;

/// So many nets a worker routes at most between two readings of the table: a reading costs a load of each word.
const NETS_PER_READING: usize = 32;

/// The nets of a worker's part get their new sets, one after another.
pub(crate) fn route_part<G: Gate>(
    input: PassInput<'_>,
    gate: &G,
    share: Share,
    worker: u32,
) -> Result<(Share, Vec<Tree>), NoMemory>
    requires pass { IsPass (pass_in input) }
    requires worker { worker < input.plan.now.workers }
    requires share { ServesTurns (pass_in input) worker (worker + 1) share }
    ensures turns { IfOk result (λ r. HadTurns (pass_in input.entry) worker (worker + 1) share r.0 r.1.items) }
{
    let PassInput {
        design,
        grounds,
        table,
        before,
        plan,
        ..
    } = input;
    let alloc = *plan.positions.allocator();
    let positions = plan.positions.as_slice();
    let (from, to) = plan.turns_of(worker, worker + 1);
    let sets = copies(alloc, before, positions, from, to)?;
    let Ok(mut pricing) = Worker::new(alloc, design, share, sets, plan.scale, plan.budget) else {
        return Err(NoMemory);
    };
    for turn in from..to {
        gate.pass(worker, (turn - from) as u64);
        let due = (turn - from) % NETS_PER_READING == 0;
        read_if(&mut pricing, design, table, due);
        let net = positions[turn] as usize;
        pricing.reprice_net(design, table, turn - from, net, grounds[net])?;
    }
    Ok(pricing.finish())
}

/// A worker reads the table where a stretch of its nets begins, which `due` says, and else stays as it is.
fn read_if(worker: &mut Worker<'_>, design: &Design, table: &LoadTable, due: bool)
    requires works { WorksOn design.now.grid table.now worker.old }
    ensures read { due ≡ true → HasRead table.now worker.old worker.new }
    ensures same { due ≡ false → IsUnchanged worker.old worker.new }
    ensures work { KeepsWork worker.old worker.new }
{
    if due {
        worker.refresh(design, table);
    }
}
