//! The pieces of runs, one by one.

ghost use Rattle.std.specs.Prelude.{◌≡◌, ◌↔◌, ◌++◌, All, Contains, IfOk, OnOk};
ghost use Rattle.grid_base.specs.declared.piece.Piece.{Piece};
ghost use Rattle.tree_set.specs.Order.{IsRising};
ghost use Rattle.straight_runs.specs.Runs.{IsStraightRun, pieces_of, run_pieces};

use crate::run::Run;
use grid_base::{NoMemory, Piece, Size, Vertex};
use std::alloc::Global;
use tree_set::Tree;

/// Puts the pieces of a run on a list.
fn list_run(size: Size, run: Run, pieces: &mut Vec<Piece>) -> Result<(), NoMemory>
    requires { IsStraightRun size run }
    ensures { OnOk result (pieces.new.items ≡ pieces.old.items ++ run_pieces size run) }
{
    let rise = run.direction.rise(size);
    for i in 0..run.count {
        let start = Vertex(run.first.0 + i * rise);
        pieces.push(run.direction.piece_from(start))?;
    }
    Ok(())
}

/// The set of the runs' pieces. It takes memory and time for each piece, so runs are there to do without it.
pub fn set_of_runs(alloc: Global, size: Size, runs: &[Run]) -> Result<Tree, NoMemory>
    requires { All (IsStraightRun size) runs.now }
    ensures rising { IfOk result (λ tree. IsRising tree) }
    ensures same { IfOk result (λ tree. (p : Piece) → Contains tree p ↔ Contains (pieces_of size runs.now) p) }
{
    let mut pieces = Vec::new(alloc);
    for run in runs {
        list_run(size, *run, &mut pieces)?;
    }
    Ok(Tree::of(pieces))
}
