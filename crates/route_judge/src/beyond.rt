//! Nets that go beyond their grounds.

ghost use Rattle.std.specs.Prelude.{◌≡◌, All};
ghost use Rattle.std.specs.List.{list_any};
ghost use Rattle.straight_runs.specs.Runs.{IsStraightRun, pieces_of};
ghost use Rattle.grid_graph.specs.declared.kind.Kind.TheVariants.{Choked};
ghost use Rattle.grid_graph.specs.Grids.{size_of};
ghost use Rattle.route_judge.specs.KindCounts.{AreCountsOf};
ghost use Rattle.route_judge.specs.Measured as measured;

use grid_graph::{Grid, Ground};
use straight_runs::{LineCounts, Run};

/// Whether one of the runs has a choked edge that the ground doesn't allow.
pub(crate) fn goes_beyond(grid: &Grid, choked: &LineCounts<'_>, over: Ground, runs: &[Run]) -> bool
    requires choked { AreCountsOf grid.now Choked choked.now }
    requires runs { All (IsStraightRun (size_of grid.now)) runs.now }
    ensures { result ≡ list_any (measured.is_beyond grid.now over) (pieces_of (size_of grid.now) runs.now) }
{
    match over {
        Ground::Open => choked.has_any(runs),
        Ground::WithChoked => false,
    }
}
