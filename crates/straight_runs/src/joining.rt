//! Whether the pieces of runs join vertices.

ghost use Rattle.std.specs.Prelude.{◌≡◌, ◌↔◌, All, IfOk, IfSome, IsTrue};
ghost use Rattle.grid_base.specs.Numbers.{IsVertex};
ghost use Rattle.grid_base.specs.Walks.{InPieces, JoinsList, WalkBetween};
ghost use Rattle.straight_runs.specs.Runs.{IsStraightRun, pieces_of};
ghost use Rattle.straight_runs.specs.Touching.{AreGroups, first_of};

use crate::linking::single_runs;
use crate::lookup::{numbers_of, run_at};
use crate::run::Run;
use crate::sweep::link_touching;
use grid_base::{NoMemory, Size, Vertex};
use groups::Groups;
use std::alloc::Global;

/// Whether all of some vertices are this one.
fn are_all(vertices: &[Vertex], one: Vertex) -> bool
    ensures { IsTrue result ↔ All (λ v. v ≡ one) vertices.now }
{
    vertices.iter().all(|v| *v == one)
}

/// The root of the group of a run that has the vertex.
fn root_at(
    size: Size,
    runs: &[Run],
    numbers: &[u64],
    groups: &mut Groups,
    v: Vertex,
) -> Option<usize>
    requires runs { All (IsStraightRun size) runs.now }
    requires groups { AreGroups size runs.now groups.old }
    ensures groups { AreGroups size runs.now groups.new }
    ensures walk { IfSome result (λ root. WalkBetween size (InPieces (pieces_of size runs.now)) (first_of runs.now root) v.0) }
{
    let i = run_at(size, runs, numbers, v)?;
    Some(groups.root(i))
}

/// Whether runs of one group have all of the vertices.
fn are_in_one_group(
    size: Size,
    runs: &[Run],
    numbers: &[u64],
    groups: &mut Groups,
    vertices: &[Vertex],
) -> bool
    requires runs { All (IsStraightRun size) runs.now }
    requires groups { AreGroups size runs.now groups.old }
    ensures { IsTrue result → JoinsList size (pieces_of size runs.now) vertices.now }
{
    let Some(first) = vertices.first() else {
        return true;
    };
    let Some(root) = root_at(size, runs, numbers, groups, *first) else {
        return false;
    };
    for v in vertices {
        let Some(other) = root_at(size, runs, numbers, groups, *v) else {
            return false;
        };
        if other != root {
            return false;
        }
    }
    true
}

/// Whether it is sure that walks in the runs' pieces lead from each of the terminals to each other one. No promise goes with a
/// no, which is meant to be right where the runs are merged.
///
/// Takes about n log n steps for n runs and terminals, however long the runs are and however often they cross.
pub fn joins_surely(
    alloc: Global,
    size: Size,
    runs: &[Run],
    terminals: &[Vertex],
) -> Result<bool, NoMemory>
    requires runs { All (IsStraightRun size) runs.now }
    requires vertices { All (λ t. IsVertex size t.0) terminals.now }
    ensures { IfOk result (λ sure. IsTrue sure → JoinsList size (pieces_of size runs.now) terminals.now) }
{
    let Some(first) = terminals.first() else {
        return Ok(true);
    };
    if are_all(terminals, *first) {
        return Ok(true);
    }
    let mut groups = single_runs(alloc, size, runs)?;
    link_touching(alloc, size, runs, &mut groups)?;
    let numbers = numbers_of(alloc, size, runs)?;
    Ok(are_in_one_group(size, runs, &numbers, &mut groups, terminals))
}
