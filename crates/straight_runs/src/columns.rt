//! The columns that a sweep over the rows meets.

ghost use Rattle.std.specs.Prelude.{◌≡◌, ◌≤◌, IfOk, IfSome, None, Some, length, replicate, slice_index_or, slice_set};

use crate::marks::Marks;
use grid_base::NoMemory;
use std::alloc::Global;

/// A run of a column. Rows are counted through all layers.
#[derive(Drop, Clone, Copy)]
pub(crate) struct Upright {
    /// Its number in the list of runs.
    pub run: usize,
    /// The number of its column among those with a run.
    pub place: usize,
    pub col: u32,
    /// The row at which it begins.
    pub begin: u32,
    /// The row at which it ends.
    pub end: u32,
}

/// The columns with runs, and of each the run that the sweep met last. Those that the sweep's row may cross or touch are kept in
/// stretches whose runs are known to be joined.
///
/// A run that is met splits at most one stretch, so over a sweep there are at most three times as many stretches as runs (Imai
/// and Asano, Finding the connected components and a maximum clique of an intersection graph of rectangles in the plane, 1983).
/// Runs that have ended are forgotten where they are found.
#[derive(Drop)]
pub(crate) struct Columns {
    /// For each column its number in the grid, rising.
    cols: Vec<u32>,
    met: Vec<Option<Upright>>,
    /// The columns with a run that isn't forgotten.
    kept: Marks,
    /// The columns with which a stretch begins.
    starts: Marks,
}

impl Columns {
    /// No run is met of these columns.
    pub fn of(alloc: Global, cols: Vec<u32>) -> Result<Columns, NoMemory>
        ensures cols { IfOk result (λ columns. columns.cols ≡ cols) }
        ensures met { IfOk result (λ columns. columns.met.items ≡ replicate (length cols.items) None) }
    {
        let count = cols.len();
        Ok(Columns {
            cols,
            met: vec![in alloc; None; count]?,
            kept: Marks::none(alloc, count)?,
            starts: Marks::none(alloc, count)?,
        })
    }

    /// The place of the first column from one of the grid on. Where no column is left out before it, that needs no search.
    pub fn place_of(&self, col: u32) -> usize
        ensures { result ≤ length self.now.cols.items }
    {
        let first = self.cols.first().copied().unwrap_or(0);
        let guess = col.saturating_sub(first) as usize;
        if self.cols.get(guess) == Some(&col) {
            return guess;
        }
        self.cols.partition_point(|c| *c < col)
    }

    /// The run of a column that was met last.
    pub fn met_at(&self, place: usize) -> Option<Upright>
        ensures { result ≡ slice_index_or self.now.met.items place None }
    {
        *self.met.get(place)?
    }

    /// A run is met: it is a stretch of its own, and what is behind it is another.
    pub fn meet(&mut self, upright: Upright)
        ensures met { self.new.met.items ≡ slice_set self.old.met.items upright.place (Some upright) }
        ensures cols { self.new.cols ≡ self.old.cols }
    {
        if let Some(met) = self.met.get_mut(upright.place) {
            *met = Some(upright);
        }
        self.kept.insert(upright.place);
        self.starts.insert(upright.place);
        self.start_behind(upright.place);
    }

    /// Begins a stretch at the first kept run behind a column.
    fn start_behind(&mut self, place: usize)
        ensures met { self.new.met ≡ self.old.met }
        ensures cols { self.new.cols ≡ self.old.cols }
    {
        if let Some(next) = self.kept.next(place.saturating_add(1)) {
            self.starts.insert(next);
        }
    }

    /// Forgets a run. If a stretch began with it, it begins with the next.
    fn forget(&mut self, place: usize)
        ensures met { self.new.met ≡ self.old.met }
        ensures cols { self.new.cols ≡ self.old.cols }
    {
        self.kept.remove(place);
        if self.starts.contains(place) {
            self.starts.remove(place);
            self.start_behind(place);
        }
    }

    /// The first run from a place on, and up to a column of the grid, that reaches the row.
    pub fn first_between(&mut self, from: usize, to: u32, row: u32) -> Option<Upright>
        ensures col { IfSome result (λ found. found.col ≤ to) }
        ensures row { IfSome result (λ found. row ≤ found.end) }
        ensures met { self.new.met ≡ self.old.met }
    {
        for _ in 0..self.cols.len() {
            let found = self.met_at(self.kept.next(from)?)?;
            if found.col > to {
                return None;
            }
            if found.end >= row {
                return Some(found);
            }
            self.forget(found.place);
        }
        None
    }

    /// The first run behind a place, and up to a column of the grid, that reaches the row and with which a stretch begins. The
    /// stretch is part of the one before it from now on.
    pub fn take_start(&mut self, behind: usize, to: u32, row: u32) -> Option<Upright>
        ensures col { IfSome result (λ found. found.col ≤ to) }
        ensures row { IfSome result (λ found. row ≤ found.end) }
        ensures met { self.new.met ≡ self.old.met }
    {
        for _ in 0..self.cols.len() {
            let found = self.met_at(self.starts.next(behind.saturating_add(1))?)?;
            if found.col > to {
                return None;
            }
            if found.end >= row {
                self.starts.remove(found.place);
                return Some(found);
            }
            self.forget(found.place);
        }
        None
    }
}
