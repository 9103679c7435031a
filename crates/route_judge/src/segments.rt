//! The segments of a block.

ghost use Rattle.std.specs.Prelude.{◌≡◌, ◌↔◌, ◌<◌, IsTrue, IfOk, OnOk, length, All, Contains};
ghost use Rattle.straight_runs.specs.Runs.{IsStraightRun, pieces_of};
ghost use Rattle.grid_base.specs.declared.piece.Piece.{Piece};
ghost use Rattle.grid_base.specs.Lines.{AreInLine};
ghost use Rattle.grid_graph.specs.declared.ground.Ground.TheVariants.{WithChoked};
ghost use Rattle.grid_graph.specs.declared.kind.Kind.TheVariants.{Wall};
ghost use Rattle.grid_graph.specs.Grids.{Allows, size_of};
ghost use Rattle.route_text.specs.BlockPieces.{LiesOn, IsPieceOf};
ghost use Rattle.route_text.specs.LentBlocks.{lent_block};
ghost use Rattle.route_text.specs.ReadLimits.{IsSegmentInRange, IsBlockInRange};
ghost use Rattle.route_judge.specs.KindCounts.{AreCountsOf};
ghost use Rattle.route_judge.specs.Limits.{number_limit};
ghost use Rattle.route_judge.specs.Lines.{ArePut};
ghost use Rattle.route_judge.specs.Orders.{segment_objections, all_segment_objections};
ghost use Rattle.route_judge.specs.Stops.{StopsAt};

use crate::lines::add_between;
use crate::placing::place_of;
use crate::reason::Reason;
use crate::stop::Stop;
use grid_base::Place;
use grid_graph::Design;
use route_text::{BlockRef, Segment};
use std::alloc::Global;
use straight_runs::{LineCounts, Run};

/// Whether two places differ in at most one of column, row and layer.
fn are_in_line(from: Place, to: Place) -> bool
    ensures { IsTrue result ↔ AreInLine from to }
{
    let same_col = from.col == to.col;
    let same_row = from.row == to.row;
    let same_layer = from.layer == to.layer;
    same_row && same_layer || same_col && same_layer || same_col && same_row
}

/// Puts the run of a segment on the list, if the segment has a piece. The segment has this number in its block, and the block
/// has its own in the text.
fn add_segment(
    design: &Design,
    walls: &LineCounts<'_>,
    block: u32,
    number: u32,
    segment: Segment,
    runs: &mut Vec<Run>,
) -> Result<(), Stop>
    requires range { IsSegmentInRange segment }
    requires walls { AreCountsOf design.now.grid Wall walls.now }
    ensures stops { StopsAt design.now (segment_objections block (number, segment)) result }
    ensures put { OnOk result (ArePut design.now.grid (LiesOn design.now.grid segment) runs.old.items runs.new.items) }
{
    let outside = Stop::Refused(Reason::PointOutside {
        block,
        segment: number,
    });
    let Some(from) = place_of(&design.grid, segment.from) else {
        return Err(outside);
    };
    let Some(to) = place_of(&design.grid, segment.to) else {
        return Err(outside);
    };
    if !are_in_line(from, to) {
        return Err(Stop::Refused(Reason::Slanted {
            block,
            segment: number,
        }));
    }
    let wall = Reason::OnWall {
        block,
        segment: number,
    };
    add_between(&design.grid, walls, from, to, wall, runs)
}

/// The runs of a block's segments, in their order; the block has this number in the text.
pub(crate) fn runs_of(
    alloc: Global,
    design: &Design,
    walls: &LineCounts<'_>,
    number: u32,
    block: &BlockRef<'_>,
) -> Result<Vec<Run>, Stop>
    requires short { length (lent_block block.now).segments < number_limit }
    requires range { IsBlockInRange (lent_block block.now) }
    requires walls { AreCountsOf design.now.grid Wall walls.now }
    ensures stops { StopsAt design.now (all_segment_objections number (lent_block block.now).segments) result }
    ensures runs { IfOk result (λ runs. All (IsStraightRun (size_of design.now.grid)) runs.items) }
    ensures named { IfOk result (λ runs. (p : Piece) → Contains (pieces_of (size_of design.now.grid) runs.items) p ↔ IsPieceOf design.now.grid (lent_block block.now) p) }
    ensures no_wall { IfOk result (λ runs. (p : Piece) → Contains (pieces_of (size_of design.now.grid) runs.items) p → Allows design.now.grid WithChoked p) }
{
    let segments = block.segments;
    let mut runs = Vec::with_capacity(alloc, segments.len())?;
    for i in 0..segments.len() {
        add_segment(design, walls, number, i as u32, segments[i], &mut runs)?;
    }
    Ok(runs)
}
