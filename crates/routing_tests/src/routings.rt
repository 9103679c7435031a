//! What was made of a design, beside what a row wants.

use std::alloc::Global;
use std::test::Fail;
use test_rows::{agree, numbers_text, sets_text};
use tree_set::Tree;

/// Fails where the set of each net or the load of each entry is not what the row wants.
pub fn routing_agrees(
    alloc: Global,
    row: &str,
    trees: &[Tree],
    loads: &[u64],
    wanted: (&str, &str),
) -> Result<(), Fail> {
    agree(row, sets_text(alloc, trees)?.as_str(), wanted.0)?;
    agree(row, numbers_text(alloc, loads)?.as_str(), wanted.1)
}
