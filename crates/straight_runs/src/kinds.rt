//! Runs by their directions.

ghost use Rattle.std.specs.Prelude.{◌≡◌, ◌<◌, ◌+◌, ℕ, All, IfOk, OnOk, length};

use crate::columns::Upright;
use crate::direction::Direction;
use crate::run::Run;
use grid_base::{NoMemory, Size};
use std::alloc::Global;

/// A stack of vias.
#[derive(Drop, Clone, Copy)]
pub(crate) struct Stack {
    /// Its number in the list of runs.
    pub run: usize,
    /// The number of its vertex on the lowest layer of the grid.
    pub tile: u32,
    pub row: u32,
    /// The place of its column among those with a run, or else of the next.
    pub place: usize,
    /// The layer at which it begins.
    pub layer: u32,
    pub vias: u32,
}

/// Runs by their directions, each kind in the order of the list.
#[derive(Drop)]
pub(crate) struct Kinds {
    /// The numbers of the runs of rows.
    pub rows: Vec<usize>,
    /// The columns with a run. They rise where the runs are merged.
    pub cols: Vec<u32>,
    pub uprights: Vec<Upright>,
    pub stacks: Vec<Stack>,
}

impl Kinds {
    /// Those of these runs.
    pub fn of(alloc: Global, size: Size, runs: &[Run]) -> Result<Kinds, NoMemory>
        ensures { IfOk result (λ kinds.
            length kinds.rows.items + length kinds.uprights.items + length kinds.stacks.items ≡ length runs.now) }
    {
        let mut kinds = Kinds {
            rows: Vec::new(alloc),
            cols: Vec::new(alloc),
            uprights: Vec::new(alloc),
            stacks: Vec::new(alloc),
        };
        for number in 0..runs.len() {
            let run = runs[number];
            match run.direction {
                Direction::East => kinds.rows.push(number)?,
                Direction::North => kinds.add_upright(size, number, run)?,
                Direction::Up => kinds.add_stack(size, number, run)?,
            }
        }
        Ok(kinds)
    }

    /// Adds a run of a column.
    fn add_upright(&mut self, size: Size, number: usize, run: Run) -> Result<(), NoMemory>
        ensures long { OnOk result (length self.new.uprights.items ≡ length self.old.uprights.items + 1) }
        ensures number { (most : ℕ) → number < most → All (λ upright. upright.run < most) self.old.uprights.items
            → OnOk result (All (λ upright. upright.run < most) self.new.uprights.items) }
        ensures rows { self.new.rows ≡ self.old.rows }
        ensures stacks { self.new.stacks ≡ self.old.stacks }
    {
        let col = run.first.0 % size.cols();
        let begin = run.first.0 / size.cols();
        if self.cols.last() != Some(&col) {
            self.cols.push(col)?;
        }
        self.uprights.push(Upright {
            run: number,
            place: self.cols.len().saturating_sub(1),
            col,
            begin,
            end: begin.saturating_add(run.count),
        })?;
        Ok(())
    }

    /// Adds a stack of vias.
    fn add_stack(&mut self, size: Size, number: usize, run: Run) -> Result<(), NoMemory>
        ensures long { OnOk result (length self.new.stacks.items ≡ length self.old.stacks.items + 1) }
        ensures number { (most : ℕ) → number < most → All (λ stack. stack.run < most) self.old.stacks.items
            → OnOk result (All (λ stack. stack.run < most) self.new.stacks.items) }
        ensures rows { self.new.rows ≡ self.old.rows }
        ensures uprights { self.new.uprights ≡ self.old.uprights }
    {
        let tiles = Direction::Up.rise(size);
        let tile = run.first.0 % tiles;
        let place = self.place_of(tile % size.cols());
        self.stacks.push(Stack {
            run: number,
            tile,
            row: tile / size.cols(),
            place,
            layer: run.first.0 / tiles,
            vias: run.count,
        })?;
        Ok(())
    }

    /// The place of the first column from one of the grid on. The one behind the last stack's is tried first.
    fn place_of(&self, col: u32) -> usize {
        if let Some(last) = self.stacks.last() {
            let next = last.place.saturating_add(1);
            if self.cols.get(next) == Some(&col) {
                return next;
            }
        }
        self.cols.partition_point(|c| *c < col)
    }
}
