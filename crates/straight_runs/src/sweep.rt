//! A sweep over the vertices that links the runs which have one in common.

ghost use Rattle.std.specs.Prelude.{◌≡◌, All, OnOk};
ghost use Rattle.straight_runs.specs.Runs.{IsStraightRun};
ghost use Rattle.straight_runs.specs.Touching.{AreGroups};

use crate::columns::{Columns, Upright};
use crate::direction::Direction;
use crate::kinds::{Kinds, Stack};
use crate::linking::{Spot, link};
use crate::run::Run;
use grid_base::{NoMemory, Size, Vertex};
use groups::Groups;
use std::alloc::Global;

/// A run of a row, with its number in the list.
#[derive(Drop, Clone, Copy)]
struct Row {
    number: usize,
    run: Run,
}

/// What a sweep over the vertices, in the order of their numbers, has met and has left to meet.
#[derive(Drop)]
struct Sweep {
    columns: Columns,
    /// By the rows at which they begin.
    uprights: Vec<Upright>,
    met_uprights: usize,
    /// No run of a column that is left begins at a row before this one.
    next_begin: u32,
    /// The numbers of the runs of rows.
    rows: Vec<usize>,
    met_rows: usize,
    /// No run of a row that is left begins at a vertex before this one.
    next_first: u32,
    last_row: Option<Row>,
}

/// A layer, with its first vertex and its first row. Rows are counted through all layers.
#[derive(Drop, Clone, Copy)]
struct Level {
    layer: u32,
    vertex: u32,
    row: u32,
}

/// Meets the runs of columns that begin up to a row. Rows are counted through all layers.
fn meet_uprights(sweep: &mut Sweep, row: u32) {
    for i in sweep.met_uprights..sweep.uprights.len() {
        let Some(upright) = sweep.uprights.get(i).copied() else {
            return;
        };
        sweep.next_begin = upright.begin;
        if upright.begin > row {
            return;
        }
        sweep.columns.meet(upright);
        sweep.met_uprights = i + 1;
    }
    sweep.next_begin = u32::MAX;
}

/// Links the run of a row with the run of a column, if they cross or touch.
#[inline(always)]
fn link_crossing(
    size: Size,
    runs: &[Run],
    groups: &mut Groups,
    number: usize,
    run: Run,
    upright: Upright,
)
    requires runs { All (IsStraightRun size) runs.now }
    requires groups { AreGroups size runs.now groups.old }
    ensures { AreGroups size runs.now groups.new }
{
    let row = run.first.0 / size.cols();
    let col = run.first.0 % size.cols();
    let steps = upright.col.wrapping_sub(col);
    let one = Spot { run: number, steps };
    let other = Spot {
        run: upright.run,
        steps: row.wrapping_sub(upright.begin),
    };
    let at = Vertex(run.first.0.wrapping_add(steps));
    link(size, runs, groups, one, other, at);
}

/// Links the run of a row with those of the columns that it crosses or touches: with one of each stretch.
fn cross(
    size: Size,
    runs: &[Run],
    groups: &mut Groups,
    columns: &mut Columns,
    number: usize,
    run: Run,
)
    requires runs { All (IsStraightRun size) runs.now }
    requires groups { AreGroups size runs.now groups.old }
    ensures { AreGroups size runs.now groups.new }
{
    let row = run.first.0 / size.cols();
    let from = run.first.0 % size.cols();
    let to = from.saturating_add(run.count);
    let place = columns.place_of(from);
    let Some(first) = columns.first_between(place, to, row) else {
        return;
    };
    link_crossing(size, runs, groups, number, run, first);
    for _ in 0..u64::MAX {
        let Some(next) = columns.take_start(first.place, to, row) else {
            break;
        };
        link_crossing(size, runs, groups, number, run, next);
    }
}

/// Meets the runs of rows that begin up to a vertex.
fn meet_rows(size: Size, runs: &[Run], groups: &mut Groups, sweep: &mut Sweep, at: Vertex)
    requires runs { All (IsStraightRun size) runs.now }
    requires groups { AreGroups size runs.now groups.old }
    ensures { AreGroups size runs.now groups.new }
{
    for i in sweep.met_rows..sweep.rows.len() {
        let number = sweep.rows.get(i).copied().unwrap_or(runs.len());
        let Some(run) = runs.get(number).copied() else {
            return;
        };
        sweep.next_first = run.first.0;
        if run.first.0 > at.0 {
            return;
        }
        meet_uprights(sweep, run.first.0 / size.cols());
        cross(size, runs, groups, &mut sweep.columns, number, run);
        sweep.met_rows = i + 1;
        sweep.last_row = Some(Row { number, run });
    }
    sweep.next_first = u32::MAX;
}

/// The vertex of a run of a row, if it reaches this far.
fn spot_of(row: Row, at: Vertex) -> Option<Spot> {
    let steps = at.0.checked_sub(row.run.first.0)?;
    if steps > row.run.count {
        return None;
    }
    Some(Spot {
        run: row.number,
        steps,
    })
}

/// Links a stack of vias with a run of edges at its vertex on a level. Where one of a row and one of a column meet there, they
/// are linked already.
fn link_stack(
    size: Size,
    runs: &[Run],
    groups: &mut Groups,
    sweep: &mut Sweep,
    stack: Stack,
    level: Level,
)
    requires runs { All (IsStraightRun size) runs.now }
    requires groups { AreGroups size runs.now groups.old }
    ensures { AreGroups size runs.now groups.new }
{
    let at = Vertex(level.vertex.wrapping_add(stack.tile));
    if sweep.next_first <= at.0 {
        meet_rows(size, runs, groups, sweep, at);
    }
    let here = Spot {
        run: stack.run,
        steps: level.layer.wrapping_sub(stack.layer),
    };
    if let Some(spot) = sweep.last_row.and_then(|row| spot_of(row, at)) {
        if link(size, runs, groups, here, spot, at) {
            return;
        }
    }
    let row = level.row.wrapping_add(stack.row);
    if sweep.next_begin <= row {
        meet_uprights(sweep, row);
    }
    if let Some(upright) = sweep.columns.met_at(stack.place) {
        let steps = row.wrapping_sub(upright.begin);
        let run = upright.run;
        link(size, runs, groups, here, Spot { run, steps }, at);
    }
}

/// Links the stacks of vias that reach a layer with the runs of edges there.
fn sweep_layer(
    size: Size,
    runs: &[Run],
    groups: &mut Groups,
    sweep: &mut Sweep,
    stacks: &[Stack],
    level: Level,
)
    requires runs { All (IsStraightRun size) runs.now }
    requires groups { AreGroups size runs.now groups.old }
    ensures { AreGroups size runs.now groups.new }
{
    for stack in stacks {
        if level.layer >= stack.layer && level.layer - stack.layer <= stack.vias {
            link_stack(size, runs, groups, sweep, *stack, level);
        }
    }
}

/// Links the runs that have a vertex in common, through others where there are such: runs of rows with the runs of columns that
/// they cross or touch, and stacks of vias with the runs of edges at their vertices.
///
/// Goes over the layers once, and takes about n log n steps for n runs, however often they cross, and one for each layer of a
/// stack. It is meant to be right where the runs are merged, in their order.
pub(crate) fn link_touching(
    alloc: Global,
    size: Size,
    runs: &[Run],
    groups: &mut Groups,
) -> Result<(), NoMemory>
    requires runs { All (IsStraightRun size) runs.now }
    requires groups { AreGroups size runs.now groups.old }
    ensures { OnOk result (AreGroups size runs.now groups.new) }
{
    let kinds = Kinds::of(alloc, size, runs)?;
    let mut uprights = kinds.uprights;
    uprights.sort_unstable_by_key(|upright| upright.begin);
    let mut sweep = Sweep {
        columns: Columns::of(alloc, kinds.cols)?,
        uprights,
        met_uprights: 0,
        next_begin: 0,
        rows: kinds.rows,
        met_rows: 0,
        next_first: 0,
        last_row: None,
    };
    let tiles = Direction::Up.rise(size);
    for layer in 0..size.layers() {
        let level = Level {
            layer,
            vertex: layer.wrapping_mul(tiles),
            row: layer.wrapping_mul(size.rows()),
        };
        sweep_layer(size, runs, groups, &mut sweep, &kinds.stacks, level);
    }
    meet_rows(size, runs, groups, &mut sweep, Vertex(u32::MAX));
    Ok(())
}
