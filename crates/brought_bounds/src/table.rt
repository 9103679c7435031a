//! A table of numbers.

use crate::rows::Rows;

/// For each set of terminals without the last one, and for each vertex, a number. The row of a mask stands at the place
/// before the mask's number.
#[derive(Drop)]
pub struct Table {
    pub rows: Rows,
}
