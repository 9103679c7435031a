//! Runs of pieces.

use crate::direction::Direction;
use grid_base::{Size, Vertex};

/// Pieces of a grid that follow each other in a direction: the first goes from a vertex, and each other one from the end of the
/// one before.
#[derive(Debug, Drop, Clone, Copy, PartialEq, Eq)]
pub struct Run {
    pub direction: Direction,
    pub first: Vertex,
    pub count: u32,
}

impl Run {
    ghost use Rattle.std.specs.Prelude.{◌≡◌, IsTrue};
    ghost use Rattle.grid_base.specs.Numbers.{IsVertex};
    ghost use Rattle.straight_runs.specs.Runs.{IsStraightRun, run_end};
    ghost use Rattle.straight_runs.specs.Touching.{HasVertex};

    /// The vertex at which the last piece ends.
    pub fn end(self, size: Size) -> Vertex
        requires { IsStraightRun size self }
        ensures value { result.0 ≡ run_end size self }
        ensures vertex { IsVertex size result.0 }
    {
        Vertex(self.first.0 + self.count * self.direction.rise(size))
    }

    /// Whether so many of its pieces lead from its begin to the vertex.
    #[inline]
    pub(crate) fn leads_to(self, size: Size, steps: u32, v: Vertex) -> bool
        ensures { IsTrue result → HasVertex size self v.0 }
    {
        let Some(apart) = steps.checked_mul(self.direction.rise(size)) else {
            return false;
        };
        steps <= self.count && v.0 >= self.first.0 && v.0 - self.first.0 == apart
    }

    /// Whether a piece goes from the vertex or ends there.
    pub fn has_vertex(self, size: Size, v: Vertex) -> bool
        ensures { IsTrue result → HasVertex size self v.0 }
    {
        if v.0 < self.first.0 {
            return false;
        }
        let rise = self.direction.rise(size);
        let apart = v.0 - self.first.0;
        apart % rise == 0 && apart / rise <= self.count
    }
}
