//! Least weights and labels that were worked out by hand, and least weights between two vertices beside a search.

ghost use Rattle.std.specs.Prelude.{◌≡◌, ◌≤◌, All, IfOk, length};
ghost use Rattle.grid_base.specs.Numbers.{IsVertex};
ghost use Rattle.shortest_paths.specs.LabelWords.{labels_size};
ghost use Rattle.steiner_tables.specs.Masks.{few_terminals};

use crate::listed::Listed;
use crate::piece_sets::are_vertices;
use crate::reference_weights::reference_least_weight;
use grid_base::{Piece, Size, Vertex};
use shortest_paths::Labels;
use std::alloc::Global;
use std::test::Fail;
use test_rows::{
    Answers, check_rows, four_fields, number_of, piece_of, size_of, two_numbers, vertices_of,
};

/// What is asked; columns, rows and layers; the pieces with their weights; the terminals; and the answer, if any: the least
/// weight of all sets of these pieces, or the label of a set of the terminals, each a bit by its place, and a tile.
const CASES: &str = "# the four edges of a square, of which the first weighs more than the way round
least|2 2 1|e0:5 e1:1 e3:2 e4:1||0
least|2 2 1|e0:5 e1:1 e3:2 e4:1|3|0
least|2 2 1|e0:5 e1:1 e3:2 e4:1|0 1|4
least|2 2 1|e0:5 e1:1 e3:2 e4:1|3 0|2
least|2 2 1|e0:5 e1:1 e3:2 e4:1|3 0 1|4
# two of them
least|2 2 1|e0:5 e3:2|0 3|7
least|2 2 1|e0:5 e3:2|0 2|none
# two tiles on two layers, where the edge below weighs more than the way over the upper layer
least|2 1 2|e0:9 e4:2 v0:1 v1:1|0 1|4
# nine tiles, with light edges from the one in the middle
least|3 3 1|e0:3 e1:3 e2:3 e3:1 e5:3 e6:1 e7:3 e8:1 e9:1 e11:3 e12:3 e14:3|1 3 5 7|4
least|3 3 1|e0:3 e1:3 e2:3 e3:1 e5:3 e6:1 e7:3 e8:1 e9:1 e11:3 e12:3 e14:3|0 2 4|7
# all edges of nine tiles, and the tiles in the middle of their four sides
1 1|3 3 1|e0:1 e1:1 e2:1 e3:1 e5:1 e6:1 e7:1 e8:1 e9:1 e11:1 e12:1 e14:1|1 3 5 7|0
1 7|3 3 1|e0:1 e1:1 e2:1 e3:1 e5:1 e6:1 e7:1 e8:1 e9:1 e11:1 e12:1 e14:1|1 3 5 7|2
3 4|3 3 1|e0:1 e1:1 e2:1 e3:1 e5:1 e6:1 e7:1 e8:1 e9:1 e11:1 e12:1 e14:1|1 3 5 7|2
6 1|3 3 1|e0:1 e1:1 e2:1 e3:1 e5:1 e6:1 e7:1 e8:1 e9:1 e11:1 e12:1 e14:1|1 3 5 7|3
7 7|3 3 1|e0:1 e1:1 e2:1 e3:1 e5:1 e6:1 e7:1 e8:1 e9:1 e11:1 e12:1 e14:1|1 3 5 7|4
7 8|3 3 1|e0:1 e1:1 e2:1 e3:1 e5:1 e6:1 e7:1 e8:1 e9:1 e11:1 e12:1 e14:1|1 3 5 7|4";

/// The grid of so many columns, rows and layers.
pub(crate) fn grid_of(field: &'static str) -> Result<Size, Fail> {
    Ok(size_of(field)?.ok_or("a grid")?)
}

/// A piece with its weight behind a colon, as in `e0:9`.
fn weighed_piece_of(entry: &'static str) -> Result<(Piece, u64), Fail> {
    let (name, weight) = entry.split_once(':').ok_or("a weight")?;
    Ok((piece_of(name)?, number_of(weight)?))
}

/// The pieces that a field lists, each with its weight, as in `e0:9 v1:2`.
fn weights_of(alloc: Global, size: Size, field: &'static str) -> Result<Listed, Fail>
    ensures { IfOk result (λ weights. weights.size ≡ size) }
{
    let mut pieces = Vec::new(alloc);
    for entry in field.split_whitespace() {
        pieces.push(weighed_piece_of(entry)?)?;
    }
    Ok(Listed::of(size, pieces).ok_or("pieces")?)
}

/// The label of a set of the terminals and a tile.
fn label_of(
    alloc: Global,
    weights: &Listed,
    size: Size,
    terminals: &[Vertex],
    asked: (u32, u32),
) -> Result<Option<u64>, Fail>
    requires size { weights.now.size ≡ size }
    requires terminals { All (λ v. IsVertex size v.0) terminals.now }
    requires some { 1 ≤ length terminals.now }
    requires few { length terminals.now ≤ few_terminals }
{
    let mut labels = Labels::new(alloc, size, 15)?;
    labels.subsets(weights, terminals);
    let (mask, tile) = asked;
    if mask < 1 || mask > labels.masks() || tile >= size.vertices() {
        return Err(Fail::new("no label"));
    }
    Ok(labels.label(mask, Vertex(tile)))
}

/// What is asked of these weights and terminals.
fn asked_of(
    alloc: Global,
    asked: &'static str,
    weights: &Listed,
    size: Size,
    terminals: &[Vertex],
) -> Result<Option<u64>, Fail>
    requires { weights.now.size ≡ size }
{
    if !are_vertices(size, terminals) {
        return Err(Fail::new("no vertex"));
    }
    if asked == "least" {
        return Ok(reference_least_weight(alloc, size, weights.pieces(), terminals)?);
    }
    if terminals.is_empty() || terminals.len() > 5 {
        return Err(Fail::new("no terminals"));
    }
    label_of(alloc, weights, size, terminals, two_numbers(asked)?)
}

/// The same for the fields of a row.
fn asked_of_row(alloc: Global, given: &'static str) -> Result<Option<u64>, Fail> {
    let (asked, grid, pieces, terminals) = four_fields(given)?;
    let size = grid_of(grid)?;
    let terminals = vertices_of(alloc, terminals)?;
    let weights = weights_of(alloc, size, pieces)?;
    asked_of(alloc, asked, &weights, size, &terminals)
}

struct Cases;

impl Answers for Cases {
    fn answer(&self, alloc: Global, given: &'static str) -> Result<String, Fail> {
        Ok(match asked_of_row(alloc, given)? {
            Some(found) => found.to_string(alloc)?,
            None => String::from_str(alloc, "none")?,
        })
    }
}

#[test]
fn least_weights_and_labels_are_those_that_were_worked_out(rt: HostRuntime) -> Result<(), Fail> {
    check_rows(rt.alloc(), CASES, &Cases)
}

/// Whether these labels have the least weights between the first vertex and each other one as distances.
fn are_least_weights(
    alloc: Global,
    weights: &Listed,
    size: Size,
    labels: &Labels,
) -> Result<bool, Fail>
    requires size { weights.now.size ≡ size }
    requires labels { labels_size labels.now ≡ size }
{
    for v in 0..size.vertices() {
        let ends = [Vertex(0), Vertex(v)];
        let least = asked_of(alloc, "least", weights, size, &ends)?;
        if least != labels.distance(Vertex(v)) {
            return Ok(false);
        }
    }
    Ok(true)
}

/// Whether the least weights between the first vertex and each other one are the distances that a search finds.
pub(crate) fn weights_agree(alloc: Global, weights: &Listed, size: Size) -> Result<bool, Fail>
    requires { weights.now.size ≡ size }
{
    let mut labels = Labels::new(alloc, size, 1)?;
    labels.distances(weights, Vertex(0), &[]);
    are_least_weights(alloc, weights, size, &labels)
}
