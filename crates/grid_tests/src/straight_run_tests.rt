//! Runs of `straight_runs` that are drawn by hand.

ghost use Rattle.std.specs.Prelude.{All, IsTrue};
ghost use Rattle.grid_base.specs.Numbers.{IsPiece, IsVertex};
ghost use Rattle.straight_runs.specs.Runs.{IsStraightRun};

use grid_base::{Piece, Size, Vertex};
use std::alloc::Global;
use std::test::Fail;
use straight_runs::{Direction, LoadSums, Run, joins_surely, merged, piece_count, set_of_runs};
use test_rows::{Answers, check_rows, numbers_text, three_fields, two_numbers, vertices_of};
use tree_set::joins;

/// Whether a run has a piece, and all that it names are pieces of the grid.
fn is_run(size: Size, run: Run) -> bool
    ensures { IsTrue result → IsStraightRun size run }
{
    let rise = run.direction.rise(size);
    for i in 0..run.count {
        let Some(steps) = i.checked_mul(rise) else {
            return false;
        };
        let Some(at) = run.first.0.checked_add(steps) else {
            return false;
        };
        if at >= 1 << 31 || !size.is_piece(run.direction.piece_from(Vertex(at))) {
            return false;
        }
    }
    run.count > 0
}

/// Whether all are.
fn are_runs(size: Size, runs: &[Run]) -> bool
    ensures { IsTrue result → All (IsStraightRun size) runs.now }
{
    for run in runs {
        if !is_run(size, *run) {
            return false;
        }
    }
    true
}

fn are_vertices(size: Size, terminals: &[Vertex]) -> bool
    ensures { IsTrue result → All (λ t. IsVertex size t.0) terminals.now }
{
    terminals.iter().all(|t| t.0 < size.vertices())
}

fn are_pieces(size: Size, pieces: &[Piece]) -> bool
    ensures { IsTrue result → All (IsPiece size) pieces.now }
{
    pieces.iter().all(|p| size.is_piece(*p))
}

/// What `joins_surely` answers of merged runs.
fn are_joined(alloc: Global, size: Size, runs: &[Run], terminals: &[Vertex]) -> Result<bool, Fail> {
    if !are_runs(size, runs) || !are_vertices(size, terminals) {
        return Err(Fail::new("no run or no vertex"));
    }
    let runs = merged(alloc, size, runs.to_vec(alloc)?)?;
    Ok(joins_surely(alloc, size, &runs, terminals)?)
}

/// The run that a word stands for: its direction, its first vertex and how many pieces it has.
fn run_of(word: &'static str) -> Result<Run, Fail> {
    let (direction, numbers) = word.split_once(' ').ok_or("a direction")?;
    let (first, count) = two_numbers(numbers)?;
    let direction = match direction {
        "east" => Direction::East,
        "north" => Direction::North,
        "up" => Direction::Up,
        _ => return Err(Fail::new("no direction")),
    };
    Ok(Run {
        direction,
        first: Vertex(first),
        count,
    })
}

/// All rows and all columns of the lower layer, each in two parts that overlap.
const LATTICE: &str =
    "east 2 5;north 0 3;east 0 4;north 16 5;east 10 5;north 1 3;east 8 4;north 17 5;east 18 5;north 2 3;east 16 4;north 18 5;east 26 5;north 3 3;east 24 4;north 19 5;east 34 5;north 4 3;east 32 4;north 20 5;east 42 5;north 5 3;east 40 4;north 21 5;east 50 5;north 6 3;east 48 4;north 22 5;east 58 5;north 7 3;east 56 4;north 23 5";

/// The runs that a field lists, or those of the lattice.
fn runs_of(alloc: Global, field: &'static str) -> Result<Vec<Run>, Fail> {
    let listed = if field == "lattice" { LATTICE } else { field };
    let mut runs = Vec::new(alloc);
    for word in listed.split(';') {
        runs.push(run_of(word)?)?;
    }
    Ok(runs)
}

/// What is asked for, runs on a grid of eight columns, eight rows and two layers, vertices, and what is found: whether the runs
/// join the vertices; how many there are after merging and of how many pieces, the first and the last of them; or the loads
/// of the edges to the east and to the north from the vertices of row 1, where the first run has a load of 2 and each further
/// one a load that is greater by 1.
const ASKED: &str = "# a cross: row 3 and column 4
joined|east 24 7;north 4 7|24 60|joined
# a T: a column that ends at row 3
joined|east 24 7;north 4 3|31 4|joined
# a corner: the row begins where the column ends
joined|east 27 4;north 3 3|3 31|joined
# a column that ends one row before
joined|east 24 7;north 4 2|31 4|apart
# a row that ends one column before
joined|east 24 3;north 4 7|24 60|apart
# two rows
joined|east 24 7;east 32 7|24 32|apart
# one row in two parts that meet, and that don't
joined|east 24 3;east 27 4|24 31|joined
joined|east 24 3;east 28 3|24 31|apart
# a via at the end of a row, and one beside it
joined|east 24 3;up 27 1|24 91|joined
joined|east 24 3;up 28 1|24 92|apart
# a terminal on no run
joined|east 24 7;north 4 7|24 0|apart
# one terminal twice
joined|east 24 7;north 4 7|0 0|joined
# two lines on two layers, with a via and without it
joined|east 8 7;east 72 7;up 13 1|8 79|joined
joined|east 8 7;east 72 7|8 79|apart
# columns 1 and 5 are joined in row 0; column 3 begins in row 2, and row 6 ends there or before
joined|east 1 4;north 1 7;north 5 7;north 19 5|57 61|joined
joined|east 1 4;north 1 7;north 5 7;north 19 5|57 61 59|apart
joined|east 1 4;north 1 7;north 5 7;north 19 5;east 49 1|57 61 59|apart
joined|east 1 4;north 1 7;north 5 7;north 19 5;east 49 2|57 61 59|joined
joined|east 1 4;north 1 7;north 5 7;north 19 5;east 52 3|57 61 59|apart
joined|east 1 4;north 1 7;north 5 7;north 19 5;east 51 2|57 61 59|joined
# a lattice has as many runs as lines
joined|lattice|0 7 56 63 27|joined
merged|lattice||16 112 Some(Run { direction: East, first: Vertex(0), count: 7 }) Some(Run { direction: North, first: Vertex(7), count: 7 })
# loads stand on the edges of the added runs
loads|east 8 3;east 10 5;up 8 1|| 2 0 2 0 5 0 3 0 3 0 3 0 3 0 0 0";

struct Found;

impl Answers for Found {
    fn answer(&self, alloc: Global, given: &'static str) -> Result<String, Fail> {
        let (kind, runs, ends) = three_fields(given)?;
        let size = Size::new(8, 8, 2).ok_or("size")?;
        let ends = vertices_of(alloc, ends)?;
        let runs = runs_of(alloc, runs)?;
        match kind {
            "joined" => joined_text(alloc, size, &runs, &ends),
            "merged" => merged_text(alloc, size, &runs),
            _ => loads_text(alloc, size, &runs),
        }
    }
}

#[test]
fn runs_are_joined_merged_and_loaded_as_was_drawn(rt: HostRuntime) -> Result<(), Fail> {
    check_rows(rt.alloc(), ASKED, &Found)
}

fn joined_text(alloc: Global, size: Size, runs: &[Run], ends: &[Vertex]) -> Result<String, Fail> {
    let joined = are_joined(alloc, size, runs, ends)?;
    Ok(String::from_str(alloc, if joined { "joined" } else { "apart" })?)
}

fn merged_text(alloc: Global, size: Size, runs: &[Run]) -> Result<String, Fail> {
    if !are_runs(size, runs) {
        return Err(Fail::new("no run"));
    }
    let lines = merged(alloc, size, runs.to_vec(alloc)?)?;
    let (count, pieces) = (lines.len(), piece_count(size, &lines));
    let (first, last) = (lines.first(), lines.last());
    Ok(format!(in alloc; "{count} {pieces} {first:?} {last:?}")?)
}

/// The sums where each run has a load.
fn sums_of(alloc: Global, size: Size, runs: &[Run]) -> Result<LoadSums, Fail> {
    let mut sums = LoadSums::none(alloc, size)?;
    let mut demand = 2u32;
    for run in runs {
        if !is_run(sums.size, *run) {
            return Err(Fail::new("no run"));
        }
        sums.add(*run, demand);
        demand = demand.wrapping_add(1);
    }
    Ok(sums)
}

fn loads_text(alloc: Global, size: Size, runs: &[Run]) -> Result<String, Fail> {
    let loads = sums_of(alloc, size, runs)?.finish();
    if loads.len() != 256 {
        return Err(Fail::new("another number of loads"));
    }
    Ok(numbers_text(alloc, &loads[16..32])?)
}

/// The next of some numbers that look drawn (Knuth, The Art of Computer Programming, volume 2, 1997), below a limit.
fn drawn(state: &mut u64, limit: u32) -> u32 {
    *state = state
        .wrapping_mul(6_364_136_223_846_793_005)
        .wrapping_add(1_442_695_040_888_963_407);
    ((*state >> 33) as u32).checked_rem(limit).unwrap_or(0)
}

/// Some runs on a grid of 60 vertices.
fn drawn_runs(alloc: Global, size: Size, state: &mut u64) -> Result<Vec<Run>, Fail> {
    let mut runs = Vec::new(alloc);
    for _ in 0..16 {
        let direction = match drawn(state, 3) {
            0 => Direction::East,
            1 => Direction::North,
            _ => Direction::Up,
        };
        let run = Run {
            direction,
            first: Vertex(drawn(state, 60)),
            count: 1 + drawn(state, 4) % 4,
        };
        if is_run(size, run) {
            runs.push(run)?;
        }
    }
    Ok(runs)
}

/// What a flood over the pieces of runs says.
fn flood_says(alloc: Global, size: Size, runs: &[Run], terminals: &[Vertex]) -> Result<bool, Fail> {
    if !are_runs(size, runs) || !are_vertices(size, terminals) {
        return Err(Fail::new("no run or no vertex"));
    }
    let tree = set_of_runs(alloc, size, runs)?;
    if !are_pieces(size, tree.pieces()) {
        return Err(Fail::new("no piece"));
    }
    Ok(joins(alloc, size, &tree, terminals)?)
}

/// Whether drawn runs join two drawn vertices. Fails where a flood says something else.
fn drawn_are_joined(alloc: Global, size: Size, state: &mut u64) -> Result<bool, Fail> {
    let runs = drawn_runs(alloc, size, state)?;
    let ends = [Vertex(drawn(state, 60)), Vertex(drawn(state, 60))];
    let sure = are_joined(alloc, size, &runs, &ends)?;
    if flood_says(alloc, size, &runs, &ends)? == sure {
        Ok(sure)
    } else {
        Err(Fail::new("a flood says something else"))
    }
}

#[test]
fn drawn_runs_are_joined_where_a_flood_says_so(rt: HostRuntime) -> Result<(), Fail> {
    let size = Size::new(5, 4, 3).ok_or("size")?;
    let mut state = 1;
    let mut some_yes = false;
    let mut some_no = false;
    for _ in 0..500 {
        let sure = drawn_are_joined(rt.alloc(), size, &mut state)?;
        some_yes |= sure;
        some_no |= !sure;
    }
    assert!(rt; some_yes && some_no);
    Ok(())
}
