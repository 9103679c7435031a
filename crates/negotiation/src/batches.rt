//! Batches of nets.

ghost use Rattle.std.specs.Prelude.{◌≡◌, ◌≤◌, ◌<◌, ◌^◌, ◌++◌, ◌∷◌, [], cond, IfOk, length};
ghost use Rattle.std.specs.List.{range_with_len};
ghost use Rattle.routing_state.specs.States.{IsStateOf};
ghost use Rattle.negotiation.specs.BatchSizes.{batch_size as size_of_batch};
ghost use Rattle.negotiation.specs.Batches.{IsBatch};
ghost use Rattle.negotiation.specs.Chosen.{AreChosen};
ghost use Rattle.negotiation.specs.Due.{IsDueNet, IsOverfullNet};
ghost use Rattle.negotiation.specs.Searches.{ArePlaces};
ghost use Rattle.negotiation.specs.Tools.{AreToolsFor};

use crate::batch_sizes::batch_size;
use crate::due::Due;
use crate::overfull::holds_overfull;
use crate::tools::Tools;
use grid_base::NoMemory;
use grid_graph::Design;
use routing_state::RoutingState;
use std::alloc::Global;

/// The next nets of the order that are due, as many as a batch has, in place of those in `batch`; and where the order goes on. At
/// its end the batch may have fewer, or none.
pub(crate) fn next_batch(
    design: &Design,
    state: &RoutingState,
    tools: &Tools,
    order: &[u32],
    from: usize,
    due: Due,
    batch: &mut Vec<u32>,
) -> Result<usize, NoMemory>
    requires tools { AreToolsFor design.now tools.now }
    requires state { IsStateOf design.now state.now }
    requires order { ArePlaces design.now order.now }
    requires from { from < length order.now }
    ensures batch { IfOk result (λ _. ArePlaces design.now batch.new.items) }
    ensures next { IfOk result (λ at. IsBatch (IsDueNet design.now state.now tools.now.extents.items due) (size_of_batch (length design.now.nets) (length order.now) due) order.now from at batch.new.items) }
    ensures on { IfOk result (λ at. (from < at) × (at ≤ length order.now)) }
{
    let size = batch_size(design.nets.list().len(), order.len(), due);
    batch.clear();
    for at in from..order.len() {
        let is_due = tools.is_due(design, state, order[at] as usize, due);
        push_if(batch, order[at], is_due)?;
        if batch.len() >= size {
            return Ok(at + 1);
        }
    }
    Ok(order.len())
}

/// The nets that hold an overfull edge, by rising places.
pub(crate) fn overfull_nets(
    alloc: Global,
    design: &Design,
    state: &RoutingState,
) -> Result<Vec<u32>, NoMemory>
    requires state { IsStateOf design.now state.now }
    ensures places { IfOk result (λ nets. ArePlaces design.now nets.items) }
    ensures exactly { IfOk result (λ nets. AreChosen (IsOverfullNet design.now state.now) (range_with_len 0 (length design.now.nets)) nets.items) }
    ensures few { IfOk result (λ nets. length nets.items < 2 ^ 32) }
{
    let mut nets = Vec::new(alloc);
    for net in 0..design.nets.list().len() {
        let is_overfull = holds_overfull(design, state, net);
        push_if(&mut nets, net as u32, is_overfull)?;
    }
    Ok(nets)
}

fn push_if(nets: &mut Vec<u32>, net: u32, is_due: bool) -> Result<(), NoMemory>
    ensures pushed { IfOk result (λ _. nets.new.items ≡ nets.old.items ++ cond is_due (net ∷ []) []) }
{
    if is_due {
        nets.push(net)?;
    }
    Ok(())
}
