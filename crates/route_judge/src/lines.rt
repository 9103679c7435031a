//! The runs between two places in line.

ghost use Rattle.std.specs.Prelude.{◌≡◌, ◌↔◌, Contains, IfErr, IsTrue, OnOk};
ghost use Rattle.straight_runs.specs.Between.{RunsBetween};
ghost use Rattle.straight_runs.specs.Runs.{IsStraightRun, run_pieces};
ghost use Rattle.grid_base.specs.Lines.{AreInLine};
ghost use Rattle.grid_base.specs.Numbers.{IsInside};
ghost use Rattle.grid_graph.specs.declared.kind.Kind.TheVariants.{Wall};
ghost use Rattle.grid_graph.specs.Grids.{size_of};
ghost use Rattle.route_judge.specs.KindCounts.{AreCountsOf};
ghost use Rattle.route_judge.specs.Lines.{ArePut, HasWall, IsForWall};

use crate::reason::Reason;
use crate::stop::Stop;
use grid_base::Place;
use grid_graph::Grid;
use straight_runs::{LineCounts, Run, run_between};

/// Whether a run has a wall, by the counts of walls.
fn has_wall(grid: &Grid, walls: &LineCounts<'_>, run: Run) -> bool
    requires walls { AreCountsOf grid.now Wall walls.now }
    requires run { IsStraightRun (size_of grid.now) run }
    ensures { IsTrue result ↔ HasWall grid.now (Contains (run_pieces (size_of grid.now) run)) }
{
    walls.count(run) > 0
}

/// Puts the run between two places in line on the list, if there is a piece between them. A wall on it is refused for the
/// reason.
pub(crate) fn add_between(
    grid: &Grid,
    walls: &LineCounts<'_>,
    from: Place,
    to: Place,
    wall: Reason,
    runs: &mut Vec<Run>,
) -> Result<(), Stop>
    requires walls { AreCountsOf grid.now Wall walls.now }
    requires from { IsInside (size_of grid.now) from }
    requires to { IsInside (size_of grid.now) to }
    requires straight { AreInLine from to }
    ensures put { OnOk result (ArePut grid.now (RunsBetween (size_of grid.now) from to) runs.old.items runs.new.items) }
    ensures wall { IfErr result (IsForWall grid.now (RunsBetween (size_of grid.now) from to) wall) }
{
    let Some(run) = run_between(grid.size(), from, to) else {
        return Ok(());
    };
    if has_wall(grid, walls, run) {
        return Err(Stop::Refused(wall));
    }
    runs.push(run)?;
    Ok(())
}
