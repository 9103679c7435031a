//! The blocks of a text, one after the other.

ghost use Rattle.std.specs.Prelude.{◌≡◌, ◌<◌, ◌+◌, ◌↔◌, ◌++◌, ◌∷◌, [], All, IfOk, OnOk, IsTrue, Contains, length, take};
ghost use Rattle.straight_runs.specs.Runs.{IsStraightRun, pieces_of};
ghost use Rattle.grid_base.specs.declared.piece.Piece.{Piece};
ghost use Rattle.grid_base.specs.Lists.{At, HasNoRepeats};
ghost use Rattle.grid_base.specs.Walks.{JoinsList};
ghost use Rattle.grid_graph.specs.declared.net_spec.NetSpec.{NetSpec};
ghost use Rattle.grid_graph.specs.declared.kind.Kind.TheVariants.{Wall};
ghost use Rattle.grid_graph.specs.Grids.{size_of};
ghost use Rattle.route_text.specs.declared.block.Block.{Block};
ghost use Rattle.route_text.specs.BlockPieces.{IsPieceOf};
ghost use Rattle.route_text.specs.LentBlocks.{lent_block};
ghost use Rattle.route_text.specs.ReadLimits.{IsBlockInRange};
ghost use Rattle.route_judge.specs.KindCounts.{AreCountsOf};
ghost use Rattle.route_judge.specs.Limits.{number_limit, AreBlocks};
ghost use Rattle.route_judge.specs.NetPlaces.{place_by_id, ArePlacesOf};
ghost use Rattle.route_judge.specs.NetSets.{IsJoining};
ghost use Rattle.route_judge.specs.Objections as objections;
ghost use Rattle.route_judge.specs.Orders.{all_segment_objections, block_objections};
ghost use Rattle.route_judge.specs.Stops.{StopsAt};
ghost use Rattle.route_judge.specs.TestedBlocks.{IsTested, AreTaken};

use crate::joining::runs_join;
use crate::net_places::NetPlaces;
use crate::reason::Reason;
use crate::segments::runs_of;
use crate::stop::Stop;
use crate::taken::TakenNets;
use crate::tested::TestedBlock;
use grid_base::NoMemory;
use grid_graph::Design;
use route_text::{BlockRef, Blocks};
use std::alloc::Global;
use straight_runs::{LineCounts, Run, merged};

/// Whether the runs' pieces join the terminals of the net at this place.
fn joins_net(alloc: Global, design: &Design, place: usize, runs: &[Run]) -> Result<bool, NoMemory>
    requires place { place < length design.now.nets }
    requires runs { All (IsStraightRun (size_of design.now.grid)) runs.now }
    ensures { (n : NetSpec) → At design.now.nets place n
        → IfOk result (λ joined. IsTrue joined ↔ JoinsList (size_of design.now.grid) (pieces_of (size_of design.now.grid) runs.now) n.terminals) }
{
    let net = &design.nets.list()[place];
    runs_join(alloc, design.grid.size(), runs, net.terminals.list())
}

/// The runs of a block, disjoint; the block has this number in the text and is of the net at this place. Their pieces have to
/// join the net's terminals.
fn joining_runs_of(
    alloc: Global,
    design: &Design,
    walls: &LineCounts<'_>,
    number: u32,
    block: &BlockRef<'_>,
    place: usize,
) -> Result<Vec<Run>, Stop>
    requires short { length (lent_block block.now).segments < number_limit }
    requires range { IsBlockInRange (lent_block block.now) }
    requires walls { AreCountsOf design.now.grid Wall walls.now }
    requires place { place < length design.now.nets }
    requires net { (n : NetSpec) → At design.now.nets place n → n.id ≡ (lent_block block.now).id }
    ensures stops { StopsAt design.now (all_segment_objections number (lent_block block.now).segments ++ objections.not_joined (lent_block block.now) ∷ []) result }
    ensures runs { IfOk result (λ runs. All (IsStraightRun (size_of design.now.grid)) runs.items) }
    ensures once { IfOk result (λ runs. HasNoRepeats (pieces_of (size_of design.now.grid) runs.items)) }
    ensures named { IfOk result (λ runs. (p : Piece) → Contains (pieces_of (size_of design.now.grid) runs.items) p ↔ IsPieceOf design.now.grid (lent_block block.now) p) }
    ensures joining { (n : NetSpec) → At design.now.nets place n → IfOk result (λ runs. IsJoining design.now.grid n (pieces_of (size_of design.now.grid) runs.items)) }
{
    let listed = runs_of(alloc, design, walls, number, block)?;
    let runs = merged(alloc, design.grid.size(), listed)?;
    if !joins_net(alloc, design, place, runs.as_slice())? {
        return Err(Stop::Refused(Reason::NotJoined { id: block.id }));
    }
    Ok(runs)
}

/// Tests the block that has this number in the text.
pub(crate) fn test_block<B: Blocks>(
    alloc: Global,
    design: &Design,
    places: &NetPlaces,
    walls: &LineCounts<'_>,
    blocks: B,
    number: usize,
    taken: &mut TakenNets,
) -> Result<TestedBlock, Stop>
    requires blocks { AreBlocks (B.list blocks) }
    requires number { number < length (B.list blocks) }
    requires places { ArePlacesOf design.now.nets (place_by_id places.now) }
    requires walls { AreCountsOf design.now.grid Wall walls.now }
    requires taken { AreTaken design.now (take number (B.list blocks)) taken.old.nets.items }
    ensures stops { (block : Block) → At (B.list blocks) number block → StopsAt design.now (block_objections (B.list blocks) (number, block)) result }
    ensures place { IfOk result (λ b. b.place < length design.now.nets) }
    ensures runs { IfOk result (λ b. All (IsStraightRun (size_of design.now.grid)) b.runs.items) }
    ensures tested { (block : Block) → At (B.list blocks) number block
        → IfOk result (λ b. IsTested design.now (take number (B.list blocks)) block b.place (pieces_of (size_of design.now.grid) b.runs.items)) }
    ensures taken { OnOk result (AreTaken design.now (take (number + 1) (B.list blocks)) taken.new.nets.items) }
{
    let block = blocks.block(number);
    let Some(place) = places.place_of(block.id) else {
        return Err(Stop::Refused(Reason::UnknownNet {
            block: number as u32,
        }));
    };
    if taken.nets[place] {
        return Err(Stop::Refused(Reason::RepeatedNet { id: block.id }));
    }
    let runs = joining_runs_of(alloc, design, walls, number as u32, &block, place)?;
    taken.nets[place] = true;
    Ok(TestedBlock { place, runs })
}
