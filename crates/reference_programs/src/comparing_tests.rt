//! Merging beside the flood that is used, for sets of pieces of a grid.

use crate::piece_sets::{are_pieces, are_vertices, numbered_set};
use crate::reference_joins::joins_by_merging;
use grid_base::{Size, Vertex};
use std::alloc::Global;
use std::test::Fail;
use tree_set::{Tree, joins};

/// Whether both programs say the same of these terminals.
fn agree(alloc: Global, size: Size, tree: &Tree, terminals: &[Vertex]) -> Result<bool, Fail> {
    if !are_pieces(size, tree.pieces()) || !are_vertices(size, terminals) {
        return Err(Fail::new("no piece or no vertex"));
    }
    let used = joins(alloc, size, tree, terminals)?;
    Ok(used == joins_by_merging(alloc, size, tree.pieces(), terminals)?)
}

/// Whether both programs say the same of the first vertex and each other one, and of three.
fn agree_from_the_first(alloc: Global, size: Size, tree: &Tree) -> Result<bool, Fail> {
    for v in 0..size.vertices() {
        let three = [Vertex(size.vertices() - 1), Vertex(v), Vertex(0)];
        if !agree(alloc, size, tree, three.as_slice())? || !agree(alloc, size, tree, &three[1..])? {
            return Ok(false);
        }
    }
    Ok(true)
}

/// Whether they do for the set of a number.
pub(crate) fn merging_agrees(alloc: Global, size: Size, number: u32) -> Result<bool, Fail> {
    let tree = numbered_set(alloc, size, number)?;
    agree_from_the_first(alloc, size, &tree)
}
