//! Worked examples of the numbers of `grid_base`, and of what no clause says.

use grid_base::{Axis, Edge, NoMemory, Piece, Place, Size, Vertex, Via};
use std::alloc::{AllocError, Global};
use std::test::Fail;
use test_rows::{
    Answers, agree, check_rows, number_of, numbers_text, piece_of, piece_text, size_of,
    three_numbers, two_fields, two_numbers,
};

/// Columns, rows and layers, what is asked for, and the answer: whether there is such a grid, whether it has an edge or a via,
/// or the piece between two vertices.
///
/// Where a word says so it is the grid's columns, rows, layers and vertices; the vertex at a column, a row and a layer, these
/// three of it, and its layer again; the ends of a piece; the edge from a vertex along an axis, with its start and its axis
/// again; or whether a piece comes before another one.
const ANSWERS: &str = "# the limits are on the product and the layers
2048 2048 2||fits
2048 2048 3||no grid
1 1 1||fits
1 1 0||no grid
0 1 1||no grid
1 0 1||no grid
1 1 16||fits
1 1 17||no grid
8388608 1 1||fits
8388609 1 1||no grid
1 524288 16||fits
65536 65536 1||no grid
# pieces stop at the border
3 2 2|e2|piece
3 2 2|e5|piece
3 2 2|e20|piece
3 2 2|v5|piece
# past the last column, past the last row, no vertex, past the last layer
3 2 2|e4|none
3 2 2|e7|none
3 2 2|e24|none
3 2 2|v6|none
# each piece is found between its ends
3 2 2|1 2|e2
3 2 2|2 1|e2
3 2 2|2 5|e5
3 2 2|5 2|e5
3 2 2|5 11|v5
3 2 2|11 5|v5
# the end of a row and the start of the next, one vertex twice, two steps, no vertex
3 2 2|2 3|none
3 2 2|4 4|none
3 2 2|0 2|none
3 2 2|11 12|none
# a grid of one column has no edges along it
1 3 2|0 1|e1
1 3 2|4 1|v1
# layers are numbered before rows, and rows before columns
3 2 2|numbers| 3 2 2 12
3 2 2|place 2 0 1| 8 2 0 1 1
3 2 2|place 3 0 0|none
3 2 2|place 0 2 0|none
3 2 2|place 0 0 2|none
# an edge has a start and an axis: 0 is x, and 1 is y
3 2 2|along 0 0| 0 0 0
3 2 2|along 3 1| 7 3 1
3 2 2|along 4 0| 8 4 0
# each piece has its ends
3 2 2|ends e2| 1 2
3 2 2|ends e5| 2 5
3 2 2|ends v5| 5 11
# edges come before vias
3 2 2|before e9 v0|true
3 2 2|before v0 e9|false
3 2 2|before e1 e2|true
3 2 2|before v1 v2|true";

struct Found;

impl Answers for Found {
    fn answer(&self, alloc: Global, given: &'static str) -> Result<String, Fail> {
        let (size, asked) = two_fields(given)?;
        match size_of(size)? {
            Some(size) => found_in(alloc, size, asked),
            None => Ok(String::from_str(alloc, "no grid")?),
        }
    }
}

#[test]
fn grids_and_their_pieces_keep_to_the_limits_and_the_border(rt: HostRuntime) -> Result<(), Fail> {
    check_rows(rt.alloc(), ANSWERS, &Found)
}

fn found_in(alloc: Global, size: Size, asked: &'static str) -> Result<String, Fail> {
    match asked.split_once(' ') {
        Some((kind, rest)) => answer_of(alloc, size, kind, rest),
        None => word_answer(alloc, size, asked),
    }
}

/// The numbers of a grid, or whether it has the piece. Without a word the grid alone is asked for.
fn word_answer(alloc: Global, size: Size, word: &'static str) -> Result<String, Fail> {
    Ok(match word {
        "" => String::from_str(alloc, "fits")?,
        "numbers" => {
            let numbers = [size.cols(), size.rows(), size.layers(), size.vertices()];
            numbers_text(alloc, &numbers)?
        }
        _ => {
            let is_piece = size.is_piece(piece_of(word)?);
            String::from_str(alloc, if is_piece { "piece" } else { "none" })?
        }
    })
}

/// What is asked for by a word and what follows it, or by two vertices.
fn answer_of(
    alloc: Global,
    size: Size,
    kind: &'static str,
    rest: &'static str,
) -> Result<String, Fail> {
    match kind {
        "place" => place_text(alloc, size, rest),
        "along" => edge_text(alloc, rest),
        "ends" => ends_text(alloc, size, piece_of(rest)?),
        "before" => order_text(alloc, rest),
        _ => Ok(between(alloc, size, number_of(kind)?, number_of(rest)?)?),
    }
}

/// The piece between two vertices of a grid.
fn between(alloc: Global, size: Size, start: u32, end: u32) -> Result<String, AllocError> {
    match size.piece_between(Vertex(start), Vertex(end)) {
        Some(piece) => piece_text(alloc, piece),
        None => String::from_str(alloc, "none"),
    }
}

fn place_text(alloc: Global, size: Size, numbers: &'static str) -> Result<String, Fail> {
    let (col, row, layer) = three_numbers(numbers)?;
    let Some(v) = size.vertex_of(Place { col, row, layer }) else {
        return Ok(String::from_str(alloc, "none")?);
    };
    let place = size.place_of(v);
    let numbers = [v.0, place.col, place.row, place.layer, size.layer_of(v)];
    Ok(numbers_text(alloc, &numbers)?)
}

fn edge_text(alloc: Global, asked: &'static str) -> Result<String, Fail> {
    let (start, along_y) = two_numbers::<u32>(asked)?;
    if start >= 1 << 31 {
        return Err(Fail::new("no start"));
    }
    let axis = if along_y == 0 { Axis::X } else { Axis::Y };
    let edge = Edge::along(Vertex(start), axis);
    let along_y = u32::from(edge.axis() == Axis::Y);
    Ok(numbers_text(alloc, &[edge.0, edge.start().0, along_y])?)
}

fn ends_text(alloc: Global, size: Size, piece: Piece) -> Result<String, Fail> {
    if !size.is_piece(piece) {
        return Err(Fail::new("no piece"));
    }
    let (start, end) = size.ends_of(piece);
    Ok(numbers_text(alloc, &[start.0, end.0])?)
}

fn order_text(alloc: Global, pieces: &'static str) -> Result<String, Fail> {
    let (first, second) = pieces.split_once(' ').ok_or("two pieces")?;
    let is_before = piece_of(first)? < piece_of(second)?;
    Ok(is_before.to_string(alloc)?)
}

fn copied(alloc: Global, bytes: &[u8]) -> Result<Vec<u8>, NoMemory> {
    let mut all = bytes.to_vec(alloc)?;
    all.push(9)?;
    Ok(all)
}

#[test]
fn a_refused_allocation_is_want_of_memory(rt: HostRuntime) -> Result<(), Fail> {
    let length = copied(rt.alloc(), b"abc")?.len();
    let is_same = NoMemory::from(AllocError) == NoMemory;
    let found = format!(in rt.alloc(); "{length} {is_same} {NoMemory}")?;
    agree("NoMemory", found.as_str(), "4 true not enough memory")
}
