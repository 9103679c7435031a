//! How many edges of a kind a run has.

ghost use Rattle.grid_graph.specs.declared.grid.Grid.{Grid as AnyGrid};
ghost use Rattle.straight_runs.specs.declared.direction.Direction.TheVariants.{East, North};
ghost use Rattle.straight_runs.specs.LineCounts.{AreCounts};

use crate::counting::counts_along;
use crate::direction::Direction;
use crate::run::Run;
use grid_base::NoMemory;
use grid_graph::{Grid, Kind};
use std::alloc::Global;

/// For each vertex how many edges of a kind lead to it along its lines, so that one subtraction counts those of a run.
#[derive(Drop)]
pub struct LineCounts<'a> {
    pub grid: &'a Grid,
    pub kind: Kind,
    east: Vec<u32>,
    north: Vec<u32>,
    pub ghost along_x: { AreCounts grid.now kind East east.items },
    pub ghost along_y: { AreCounts grid.now kind North north.items },
}

impl<'a> LineCounts<'a> {
    ghost use Rattle.std.specs.Prelude.{◌≡◌, All, IfOk};
    ghost use Rattle.std.specs.List.{list_any};
    ghost use Rattle.grid_graph.specs.Grids.{size_of};
    ghost use Rattle.straight_runs.specs.LineCounts.{is_of_kind, kind_count};
    ghost use Rattle.straight_runs.specs.Runs.{IsStraightRun, pieces_of, run_pieces};

    /// The counts of all edges of a kind. Takes two passes over the vertices.
    pub fn of(alloc: Global, grid: &'a Grid, kind: Kind) -> Result<LineCounts<'a>, NoMemory>
        ensures grid { IfOk result (λ counts. counts.grid.now ≡ grid.now) }
        ensures kind { IfOk result (λ counts. counts.kind ≡ kind) }
    {
        let east = counts_along(alloc, grid, kind, Direction::East)?;
        let north = counts_along(alloc, grid, kind, Direction::North)?;
        Ok(LineCounts {
            grid,
            kind,
            east,
            north,
        })
    }

    /// How many edges of the kind a run has.
    pub fn count(&self, run: Run) -> u32
        requires { IsStraightRun (size_of self.now.grid.now) run }
        ensures { result ≡ kind_count self.now.grid.now self.now.kind (run_pieces (size_of self.now.grid.now) run) }
    {
        match run.direction {
            Direction::East => self.count_on(&self.east, run),
            Direction::North => self.count_on(&self.north, run),
            Direction::Up => 0,
        }
    }

    /// Whether one of some runs has an edge of the kind.
    pub fn has_any(&self, runs: &[Run]) -> bool
        requires { All (IsStraightRun (size_of self.now.grid.now)) runs.now }
        ensures { result
            ≡ list_any (is_of_kind self.now.grid.now self.now.kind) (pieces_of (size_of self.now.grid.now) runs.now) }
    {
        for run in runs {
            if self.count(*run) > 0 {
                return true;
            }
        }
        false
    }

    // How many it has by the counts of its direction.
    fn count_on(&self, counts: &[u32], run: Run) -> u32
        requires run { IsStraightRun (size_of self.now.grid.now) run }
        requires counts { AreCounts self.now.grid.now self.now.kind run.direction counts.now }
        ensures { result ≡ kind_count self.now.grid.now self.now.kind (run_pieces (size_of self.now.grid.now) run) }
    {
        let end = run.end(self.grid.size());
        counts[end.0 as usize] - counts[run.first.0 as usize]
    }
}
