//! Runs in groups by the vertices that they share.

ghost use Rattle.std.specs.Prelude.{◌≡◌, All, IfOk, IsTrue};
ghost use Rattle.straight_runs.specs.Runs.{IsStraightRun};
ghost use Rattle.straight_runs.specs.Touching.{AreGroups, IsRunWith};

use crate::run::Run;
use grid_base::{NoMemory, Size, Vertex};
use groups::Groups;
use std::alloc::Global;

/// A vertex of a run: the run's number in the list, and how many of its pieces lead to the vertex.
#[derive(Drop, Clone, Copy)]
pub(crate) struct Spot {
    pub run: usize,
    pub steps: u32,
}

/// Each run alone.
pub(crate) fn single_runs(alloc: Global, size: Size, runs: &[Run]) -> Result<Groups, NoMemory>
    requires { All (IsStraightRun size) runs.now }
    ensures { IfOk result (λ groups. AreGroups size runs.now groups) }
{
    Groups::single(alloc, runs.len())
}

/// Whether the run has the vertex there.
fn is_at(size: Size, runs: &[Run], spot: Spot, at: Vertex) -> bool
    ensures { IsTrue result → IsRunWith size runs.now at.0 spot.run }
{
    spot.run < runs.len() && runs[spot.run].leads_to(size, spot.steps, at)
}

/// Unites the groups of two runs if both have the vertex where they are said to. Answers whether they have it.
#[inline(always)]
pub(crate) fn link(
    size: Size,
    runs: &[Run],
    groups: &mut Groups,
    one: Spot,
    other: Spot,
    at: Vertex,
) -> bool
    requires runs { All (IsStraightRun size) runs.now }
    requires groups { AreGroups size runs.now groups.old }
    ensures { AreGroups size runs.now groups.new }
{
    if !is_at(size, runs, one, at) || !is_at(size, runs, other, at) {
        return false;
    }
    groups.unite(one.run, other.run);
    true
}
