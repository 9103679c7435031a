//! The worked designs by their names.

use crate::texts::{
    BLOCK, BOX, BRIDGE, CHOKED_SQUARE, CRLF, CROWDED_ROW, CUT, FORCED, GAP, LAYERED, LAYERED_WALLS,
    NO_WAY_ROUND, PLACES, ROOM, ROUND, ROW, SHARED_LAYERS, SHARED_ROW, SIX_IN_A_ROW, SQUARE, STACK,
    STACK_OF_TWO, STAR, TWO_ALONG, WALLED, WIDE_WIRES, edited,
};
use grid_graph::Design;
use ispd_reader::read_design;
use std::alloc::Global;
use std::test::Fail;
use test_rows::{number_of, text_of};

/// The text of this name.
fn named(name: &str) -> Option<&'static [u8]> {
    match name {
        "BLOCK" => Some(BLOCK),
        "BOX" => Some(BOX),
        "BRIDGE" => Some(BRIDGE),
        "CHOKED_SQUARE" => Some(CHOKED_SQUARE),
        "CRLF" => Some(CRLF),
        "CROWDED_ROW" => Some(CROWDED_ROW),
        "CUT" => Some(CUT),
        "FORCED" => Some(FORCED),
        "GAP" => Some(GAP),
        "LAYERED" => Some(LAYERED),
        "LAYERED_WALLS" => Some(LAYERED_WALLS),
        "NO_WAY_ROUND" => Some(NO_WAY_ROUND),
        "PLACES" => Some(PLACES),
        "ROOM" => Some(ROOM),
        "ROUND" => Some(ROUND),
        "ROW" => Some(ROW),
        "SHARED_LAYERS" => Some(SHARED_LAYERS),
        "SHARED_ROW" => Some(SHARED_ROW),
        "SIX_IN_A_ROW" => Some(SIX_IN_A_ROW),
        "SQUARE" => Some(SQUARE),
        "STACK" => Some(STACK),
        "STACK_OF_TWO" => Some(STACK_OF_TWO),
        "STAR" => Some(STAR),
        "TWO_ALONG" => Some(TWO_ALONG),
        "WALLED" => Some(WALLED),
        "WIDE_WIRES" => Some(WIDE_WIRES),
        _ => None,
    }
}

/// The text of the design that a field stands for: a worked design's name, and behind it maybe two places in its text and
/// what stands between them instead, as in `ROW 119 144 0;0;`.
pub fn design_text(alloc: Global, field: &'static str) -> Result<Vec<u8>, Fail> {
    let (name, edit) = field.split_once(' ').unwrap_or((field, "0 0"));
    let (from, edit) = edit.split_once(' ').ok_or("a second place")?;
    let (to, by) = edit.split_once(' ').unwrap_or((edit, ""));
    let text = named(name).ok_or("a worked design")?;
    let (from, to) = (number_of(from)?, number_of(to)?);
    if from > to || to > text.len() {
        return Err(Fail::new("two places in the text of a design"));
    }
    let by = text_of(alloc, by)?;
    Ok(edited(alloc, text, from, to, by.as_bytes())?)
}

/// The design that a field stands for.
pub fn design_of(alloc: Global, field: &'static str) -> Result<Design, Fail> {
    let text = design_text(alloc, field)?;
    Ok(read_design(alloc, text.as_slice())?)
}
