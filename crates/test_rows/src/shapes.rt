//! Grids, vertices, pieces, sets of pieces and fractions as fields of rows.

ghost use Rattle.std.specs.Prelude.{◌≡◌, IfOk, None, codes, string_bytes};
ghost use Rattle.tree_set.specs.Order.{IsRising};
ghost use Rattle.test_rows.specs.Fields.{piece_word};

use crate::fault::RowFault;
use crate::numbers::{number_of, three_numbers};
use grid_base::{Edge, Piece, Size, Vertex, Via};
use std::alloc::{AllocError, Global};
use tree_set::{Fraction, Tree};

/// The size of so many columns, rows and layers, where there is one.
pub fn size_of(field: &'static str) -> Result<Option<Size>, RowFault> {
    let (cols, rows, layers) = three_numbers(field)?;
    Ok(Size::new(cols, rows, layers))
}

/// The vertices of these numbers.
pub fn vertices_of(alloc: Global, field: &'static str) -> Result<Vec<Vertex>, RowFault> {
    let mut vertices = Vec::new(alloc);
    for word in field.split_whitespace() {
        vertices.push(Vertex(number_of(word)?))?;
    }
    Ok(vertices)
}

/// An edge or a via by its number, as in `e2` and `v12`.
pub fn piece_of(word: &'static str) -> Result<Piece, RowFault> {
    if let Some(number) = word.strip_prefix('e') {
        return Ok(Piece::Edge(Edge(number_of(number)?)));
    }
    if let Some(number) = word.strip_prefix('v') {
        return Ok(Piece::Via(Via(number_of(number)?)));
    }
    Err(RowFault::NoPiece(word))
}

/// The set of pieces that a field lists, as in `e0 e2 v12`.
pub fn set_of(alloc: Global, field: &'static str) -> Result<Tree, RowFault>
    ensures { IfOk result IsRising }
{
    let mut pieces = Vec::new(alloc);
    for word in field.split_whitespace() {
        pieces.push(piece_of(word)?)?;
    }
    Ok(Tree::of(pieces))
}

/// The sets that a field lists, with a semicolon behind each.
pub fn sets_of(alloc: Global, field: &'static str) -> Result<Vec<Tree>, RowFault> {
    let mut trees = Vec::new(alloc);
    if field.is_empty() {
        return Ok(trees);
    }
    let Some(sets) = field.strip_suffix(';') else {
        return Err(RowFault::NoEnd(field));
    };
    for set in sets.split(';') {
        trees.push(set_of(alloc, set)?)?;
    }
    Ok(trees)
}

/// The piece as a word.
pub fn piece_text(alloc: Global, piece: Piece) -> Result<String, AllocError>
    ensures { IfOk result (λ text. string_bytes text ≡ piece_word piece) }
{
    match piece {
        Piece::Edge(Edge(e)) => format!(in alloc; "e{e}"),
        Piece::Via(Via(v)) => format!(in alloc; "v{v}"),
    }
}

/// The pieces of a set as a field, each behind a blank.
pub fn set_text(alloc: Global, tree: &Tree) -> Result<String, AllocError> {
    let mut text = String::new(alloc);
    for piece in tree.pieces() {
        text.push_str(" ")?;
        text.push_str(piece_text(alloc, *piece)?.as_str())?;
    }
    Ok(text)
}

/// The sets as a field, with a semicolon behind each.
pub fn sets_text(alloc: Global, trees: &[Tree]) -> Result<String, AllocError> {
    let mut text = String::new(alloc);
    for tree in trees {
        text.push_str(set_text(alloc, tree)?.as_str())?;
        text.push_str(";")?;
    }
    Ok(text)
}

/// The two numbers of a fraction with a slash between them, or `none`.
pub fn fraction_text(alloc: Global, fraction: Option<Fraction>) -> Result<String, AllocError>
    ensures { fraction ≡ None → IfOk result (λ text. string_bytes text ≡ codes "none") }
{
    match fraction {
        None => String::from_str(alloc, "none"),
        Some(Fraction { num, den, .. }) => format!(in alloc; "{num}/{den}"),
    }
}
