//! Whether rows are at most the sums of two parts.

ghost use Rattle.std.specs.Prelude.{◌≡◌, ◌<◌, ◌≤◌, ◌+◌, ◌↔◌, ℕ, IsTrue, length};
ghost use Rattle.grid_base.specs.Numbers.{vertices};
ghost use Rattle.steiner_tables.specs.Masks.{AreParts};
ghost use Rattle.brought_bounds.specs.TableWords.{table_number, IsFilled, SplitHolds};

use crate::rows::Rows;
use grid_base::{Size, Vertex};

/// Whether two masks have no terminal in common.
fn are_parts(one: u32, other: u32) -> bool
    requires some { 0 < one }
    requires others { 0 < other }
    ensures { IsTrue result ↔ AreParts one other (one + other) }
{
    one & other == 0
}

/// Whether the row of two masks together is at most the sum of their rows.
fn row_is_within(size: Size, rows: &Rows, one: u32, other: u32) -> bool
    requires some { 0 < one }
    requires others { 0 < other }
    requires few { length rows.now < 16 }
    requires last { one + other ≤ length rows.now }
    requires filled { IsFilled size rows.now }
    ensures { IsTrue result ↔ ((v : ℕ) → v < vertices size
        → table_number rows.now (one + other) v ≤ table_number rows.now one v + table_number rows.now other v) }
{
    for v in 0..size.vertices() {
        let v = Vertex(v);
        if rows.number(one + other, v) > rows.number(one, v) + rows.number(other, v) {
            return false;
        }
    }
    true
}

/// The same where the two masks are parts of one.
fn split_holds(size: Size, rows: &Rows, one: u32, other: u32) -> bool
    requires some { (0 < one) × (one ≤ length rows.now) }
    requires others { (0 < other) × (other ≤ length rows.now) }
    requires few { length rows.now < 16 }
    requires filled { IsFilled size rows.now }
    ensures { IsTrue result ↔ SplitHolds (vertices size) (length rows.now) (table_number rows.now) one other }
{
    if (one + other) as usize > rows.len() {
        return true;
    }
    if !are_parts(one, other) {
        return true;
    }
    row_is_within(size, rows, one, other)
}

/// The same for one part and each other.
fn splits_hold_with(size: Size, rows: &Rows, one: u32) -> bool
    requires some { (0 < one) × (one ≤ length rows.now) }
    requires few { length rows.now < 16 }
    requires filled { IsFilled size rows.now }
    ensures { IsTrue result ↔ ((other : ℕ) → 0 < other → other ≤ length rows.now
        → SplitHolds (vertices size) (length rows.now) (table_number rows.now) one other) }
{
    for place in 0..rows.len() as u32 {
        if !split_holds(size, rows, one, place + 1) {
            return false;
        }
    }
    true
}

/// Whether each row is at most the sum of those of two parts of its mask, however it is split.
pub(crate) fn splits_hold(size: Size, rows: &Rows) -> bool
    requires few { length rows.now < 16 }
    requires filled { IsFilled size rows.now }
    ensures { IsTrue result ↔ ((one other : ℕ) → 0 < one → one ≤ length rows.now → 0 < other → other ≤ length rows.now
        → SplitHolds (vertices size) (length rows.now) (table_number rows.now) one other) }
{
    for place in 0..rows.len() as u32 {
        if !splits_hold_with(size, rows, place + 1) {
            return false;
        }
    }
    true
}
