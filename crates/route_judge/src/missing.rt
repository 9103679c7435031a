//! Nets that need a block and have none.

ghost use Rattle.std.specs.Prelude.{◌≡◌, ◌<◌, ◌↔◌, List, IfOk, IsTrue, length, map};
ghost use Rattle.grid_base.specs.Lists.{At};
ghost use Rattle.grid_graph.specs.declared.net_spec.NetSpec.{NetSpec};
ghost use Rattle.route_text.specs.declared.block.Block.{Block};
ghost use Rattle.route_judge.specs.BlockSets.{AreMissing};
ghost use Rattle.route_judge.specs.Objections as objections;
ghost use Rattle.route_judge.specs.Objections.{Applies};
ghost use Rattle.route_judge.specs.Stops.{StopsAt};
ghost use Rattle.route_judge.specs.TestedBlocks.{AreTaken};

use crate::reason::Reason;
use crate::stop::Stop;
use grid_base::NoMemory;
use grid_graph::Design;
use std::alloc::Global;

/// Whether the net at a place lacks a block, where this says which nets have one: it has two terminals or more.
fn lacks_block(design: &Design, taken: &[bool], place: usize) -> bool
    requires long { length taken.now ≡ length design.now.nets }
    requires place { place < length design.now.nets }
    ensures { (blocks : List Block) (n : NetSpec) → AreTaken design.now blocks taken.now → At design.now.nets place n → (IsTrue result ↔ Applies design.now (objections.missing_net blocks n)) }
{
    let net = &design.nets.list()[place];
    !taken[place] && net.terminals.list().len() >= 2
}

/// Looks for the first net that needs a block and has none, where this says which nets have one.
pub(crate) fn find_missing(design: &Design, taken: &[bool]) -> Result<(), Stop>
    requires { length taken.now ≡ length design.now.nets }
    ensures stops { (blocks : List Block) → AreTaken design.now blocks taken.now → StopsAt design.now (map (objections.missing_net blocks) design.now.nets) result }
{
    for place in 0..taken.len() {
        if lacks_block(design, taken, place) {
            let id = design.nets.list()[place].id;
            return Err(Stop::Refused(Reason::MissingNet { id }));
        }
    }
    Ok(())
}

/// The places of the nets that need a block and have none, where this says which nets have one.
pub(crate) fn missing_nets(
    alloc: Global,
    design: &Design,
    taken: &[bool],
) -> Result<Vec<u32>, NoMemory>
    requires { length taken.now ≡ length design.now.nets }
    ensures { IfOk result (λ missing. (blocks : List Block) → AreTaken design.now blocks taken.now → AreMissing design.now blocks missing.items) }
{
    let mut missing = Vec::new(alloc);
    for place in 0..taken.len() {
        if lacks_block(design, taken, place) {
            missing.push(place as u32)?;
        }
    }
    Ok(missing)
}
