//! Runs by the vertices that they have.

ghost use Rattle.std.specs.Prelude.{◌≡◌, All, IfOk, IfSome, map};
ghost use Rattle.straight_runs.specs.Lines.{line_number};
ghost use Rattle.straight_runs.specs.Touching.{IsRunWith};

use crate::direction::Direction;
use crate::run::Run;
use grid_base::{NoMemory, Size, Vertex};
use std::alloc::Global;

/// The numbers of the runs' first pieces, when all pieces are counted line by line.
pub(crate) fn numbers_of(alloc: Global, size: Size, runs: &[Run]) -> Result<Vec<u64>, NoMemory>
    ensures { IfOk result (λ numbers. numbers.items ≡ map (λ run. line_number size run.direction run.first.0) runs.now) }
{
    let mut numbers = Vec::with_capacity(alloc, runs.len())?;
    for run in runs {
        numbers.push(run.direction.line_number(size, run.first))?;
    }
    Ok(numbers)
}

/// The number in the list of a run of this direction that has the vertex. Where the runs are merged, and these are the numbers
/// of their first pieces, it is found if there is one.
pub(crate) fn run_with(
    size: Size,
    runs: &[Run],
    numbers: &[u64],
    direction: Direction,
    v: Vertex,
) -> Option<usize>
    ensures { IfSome result (IsRunWith size runs.now v.0) }
{
    let number = direction.line_number(size, v);
    let past = numbers.partition_point(|n| *n <= number);
    if past == 0 || past > runs.len() || !runs[past - 1].has_vertex(size, v) {
        return None;
    }
    Some(past - 1)
}

/// The number in the list of a run that has the vertex.
pub(crate) fn run_at(size: Size, runs: &[Run], numbers: &[u64], v: Vertex) -> Option<usize>
    ensures { IfSome result (IsRunWith size runs.now v.0) }
{
    if let Some(i) = run_with(size, runs, numbers, Direction::East, v) {
        return Some(i);
    }
    if let Some(i) = run_with(size, runs, numbers, Direction::North, v) {
        return Some(i);
    }
    run_with(size, runs, numbers, Direction::Up, v)
}
