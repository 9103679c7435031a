//! The rows of a table.

ghost use Rattle.std.specs.Prelude.{◌≡◌, ◌<◌, ◌≤◌, ◌↔◌, ℕ, List, All, IsTrue, length};
ghost use Rattle.brought_bounds.specs.RowLists.{lists_of};
ghost use Rattle.brought_bounds.specs.TableWords.{mask_row, table_number, IsRow, max_table_number};

use crate::limits::MAX_NUMBER;
use grid_base::Vertex;
use std::marker::Model;

/// Numbers of vertices, one list for each mask from 1 on: a mask has bit i where it has terminal i.
#[derive(Drop)]
pub struct Rows {
    rows: Vec<Vec<u64>>,
}

impl Model for Rows {
    ghost Value = { List (List ℕ) };

    ghost view = { λ s. lists_of s.rows.items };
}

impl Rows {
    /// The rows of these lists.
    pub fn of(rows: Vec<Vec<u64>>) -> Self
        ensures { result ≡ lists_of rows.items }
    {
        Rows { rows }
    }

    /// The lists.
    pub fn list(&self) -> &[Vec<u64>]
        ensures { lists_of result.now ≡ self.now }
    {
        self.rows.as_slice()
    }

    /// The lists, taken out.
    pub fn into_list(self) -> Vec<Vec<u64>>
        ensures { lists_of result.items ≡ self }
    {
        self.rows
    }

    /// How many rows there are.
    pub(crate) fn len(&self) -> usize
        ensures { result ≡ length self.now }
    {
        self.rows.len()
    }

    /// Whether there are so many rows, each of so many numbers, and no number is above `MAX_NUMBER`.
    pub(crate) fn are(&self, rows: usize, numbers: usize) -> bool
        ensures { IsTrue result ↔ ((length self.now ≡ rows) × All (IsRow numbers) self.now) }
    {
        self.rows.len() == rows && are_rows(self.rows.as_slice(), numbers)
    }

    /// The number of a mask at a vertex.
    pub(crate) fn number(&self, mask: u32, v: Vertex) -> u64
        requires mask { 0 < mask }
        requires row { mask ≤ length self.now }
        requires vertex { v.0 < length (mask_row self.now mask) }
        ensures { result ≡ table_number self.now mask v.0 }
    {
        self.rows[mask as usize - 1][v.0 as usize]
    }
}

/// Whether there are so many numbers, none above `MAX_NUMBER`.
fn is_row(row: &[u64], numbers: usize) -> bool
    ensures { IsTrue result ↔ IsRow numbers row.now }
{
    row.len() == numbers && row.iter().all(|number| *number <= MAX_NUMBER)
}

/// Whether each list has so many numbers, none above `MAX_NUMBER`.
fn are_rows(rows: &[Vec<u64>], numbers: usize) -> bool
    ensures { IsTrue result ↔ All (λ row. IsRow numbers row.items) rows.now }
{
    rows.iter().all(|row| is_row(row.as_slice(), numbers))
}
