//! Which nets have a block.

ghost use Rattle.std.specs.Prelude.{[], IfOk};
ghost use Rattle.route_judge.specs.TestedBlocks.{AreTaken};

use grid_base::NoMemory;
use grid_graph::Design;
use std::alloc::Global;

/// For each net, in file order, whether it had a block.
#[derive(Drop)]
pub(crate) struct TakenNets {
    pub nets: Vec<bool>,
}

impl TakenNets {
    /// No net had a block yet.
    pub fn none(alloc: Global, design: &Design) -> Result<TakenNets, NoMemory>
        ensures { IfOk result (λ taken. AreTaken design.now [] taken.nets.items) }
    {
        Ok(TakenNets {
            nets: vec![in alloc; false; design.nets.list().len()]?,
        })
    }
}
