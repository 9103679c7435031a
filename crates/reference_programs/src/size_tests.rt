//! Memory suffices for sizes that a user meets, and what is answered then is right.

use crate::piece_sets::{are_pieces, are_vertices};
use grid_base::{Edge, Piece, Size, Vertex};
use std::alloc::{AllocError, Global};
use std::test::Fail;
use tree_set::{Tree, joins};

/// The edges to these tiles of a row, each from the tile before it.
fn edges_to(alloc: Global, first: u32, end: u32) -> Result<Vec<Piece>, AllocError> {
    let mut edges = Vec::new(alloc);
    for v in first..end {
        edges.push(Piece::Edge(Edge(v.saturating_mul(2).saturating_sub(2))))?;
    }
    Ok(edges)
}

/// Whether what is made of the edges to these tiles has all of them, and its copy too.
fn are_copied(alloc: Global, first: u32, end: u32) -> Result<bool, Fail> {
    let edges = edges_to(alloc, first, end)?;
    let tree = Tree::of(Vec::from_slice(alloc, edges.as_slice())?);
    let copied = tree.copy()?;
    Ok(copied.pieces() == edges.as_slice())
}

/// Whether the edges to these tiles of a row join its ends.
fn join_the_ends(alloc: Global, size: Size, first: u32, end: u32) -> Result<bool, Fail> {
    let tree = Tree::of(edges_to(alloc, first, end)?);
    let ends = [Vertex(0), Vertex(size.vertices() - 1)];
    if !are_pieces(size, tree.pieces()) || !are_vertices(size, &ends) {
        return Err(Fail::new("no piece or no vertex"));
    }
    Ok(joins(alloc, size, &tree, &ends)?)
}

/// Whether all edges of a row are copied and join its ends, and all but the first one don't join them.
pub(crate) fn row_agrees(alloc: Global, size: Size) -> Result<bool, Fail> {
    let end = size.vertices();
    Ok(
        are_copied(alloc, 1, end)?
            && join_the_ends(alloc, size, 1, end)?
            && !join_the_ends(alloc, size, 2, end)?,
    )
}
