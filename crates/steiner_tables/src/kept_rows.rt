//! Rows of numbers that are kept, one for each mask.

ghost use Rattle.std.specs.Prelude.{◌≡◌, ◌≤◌, ℕ, [], All, IfOk, length};
ghost use Rattle.steiner_tables.specs.Keeping.{AreKept, numbers_of, room_of};
ghost use Rattle.steiner_tables.specs.KeptNumbers.{kept_numbers};

use crate::kept_row::KeptRow;
use grid_base::NoMemory;
use std::alloc::Global;

/// A row of numbers for each mask, by the index of the vertices that were found when it was stored. Each has room for all
/// vertices.
#[derive(Drop)]
pub struct KeptRows {
    room: u32,
    rows: Vec<KeptRow>,
    pub ghost kept: { AreKept room rows.items },
}

impl KeptRows {
    ghost use Rattle.std.specs.Prelude.{◌≡◌, ◌≢◌, ◌<◌, ◌≤◌, ℕ, IfOk, length, get_or};
    ghost use Rattle.grid_base.specs.Limits.{max_vertices};
    ghost use Rattle.steiner_tables.specs.Kept.{kept_in, kept_len, masks_in};
    ghost use Rattle.steiner_tables.specs.Masks.{proper_masks};
    ghost use Rattle.label_search.specs.Stamped.{far};

    /// Empty rows for this many masks, each with room for so many numbers.
    pub fn new(alloc: Global, masks: u32, room: u32) -> Result<KeptRows, NoMemory>
        requires masks { masks ≤ proper_masks }
        requires room { room ≤ max_vertices }
        ensures room { IfOk result (λ k. k.room ≡ room) }
        ensures masks { IfOk result (λ k. masks_in k ≡ masks) }
        ensures none { IfOk result (λ k. (mask : ℕ) → kept_len k mask ≡ 0) }
    {
        let rows = empty_rows(alloc, masks, room)?;
        Ok(KeptRows { room, rows })
    }

    /// Empties all rows.
    pub fn forget(&mut self)
        ensures room { self.new.room ≡ self.old.room }
        ensures masks { masks_in self.new ≡ masks_in self.old }
        ensures none { (mask : ℕ) → kept_len self.new mask ≡ 0 }
    {
        empty_all(self.rows.as_mut_slice());
    }

    /// How many masks have a row.
    pub fn masks(&self) -> u32
        ensures { result ≡ masks_in self.now }
    {
        self.rows.len() as u32
    }

    /// The kept number of a mask at an index, or `FAR`.
    pub fn number(&self, mask: u32, index: u32) -> u64
        requires some { 0 < mask }
        requires room { mask ≤ masks_in self.now }
        ensures number { result ≡ kept_in self.now mask index }
        ensures limit { result ≤ far }
    {
        self.rows[(mask - 1) as usize].number(index)
    }

    /// A number of indices below which stand all at which both masks have a number.
    pub(crate) fn shared_len(&self, one: u32, other: u32) -> u32
        requires one { 0 < one }
        requires one_room { one ≤ masks_in self.now }
        requires other { 0 < other }
        requires other_room { other ≤ masks_in self.now }
        ensures within { result ≤ kept_len self.now one }
        ensures shared { (i : ℕ) → kept_in self.now one i < far → kept_in self.now other i < far → i < result }
    {
        self.row_len(one).min(self.row_len(other))
    }

    /// How many numbers the row of a mask has.
    fn row_len(&self, mask: u32) -> u32
        requires some { 0 < mask }
        requires room { mask ≤ masks_in self.now }
        ensures { result ≡ kept_len self.now mask }
    {
        self.rows[(mask - 1) as usize].list().len() as u32
    }

    /// Stores the row of a mask.
    pub(crate) fn store(&mut self, mask: u32, numbers: &[u64])
        requires some { 0 < mask }
        requires masks { mask ≤ masks_in self.old }
        requires room { length numbers.now ≤ self.old.room }
        requires limits { (i : ℕ) → get_or numbers.now i far ≤ far }
        ensures room { self.new.room ≡ self.old.room }
        ensures masks { masks_in self.new ≡ masks_in self.old }
        ensures stored { (i : ℕ) → kept_in self.new mask i ≡ get_or numbers.now i far }
        ensures count { kept_len self.new mask ≡ length numbers.now }
        ensures others { (other i : ℕ) → 0 < other → other ≢ mask → kept_in self.new other i ≡ kept_in self.old other i }
        ensures other_lens { (other : ℕ) → 0 < other → other ≢ mask → kept_len self.new other ≡ kept_len self.old other }
    {
        self.rows[(mask - 1) as usize].store(numbers);
    }
}

/// So many empty rows.
fn empty_rows(alloc: Global, masks: u32, room: u32) -> Result<Vec<KeptRow>, NoMemory>
    ensures count { IfOk result (λ rows. length rows.items ≡ masks) }
    ensures empty { IfOk result (λ rows. All (λ row. row ≡ kept_numbers room []) rows.items) }
{
    let mut rows = Vec::new(alloc);
    for _ in 0..masks {
        rows.push(KeptRow::new(alloc, room)?)?;
    }
    Ok(rows)
}

/// Empties each row.
fn empty_all(rows: &mut [KeptRow])
    ensures length { length rows.new ≡ length rows.old }
    ensures none { (row : ℕ) → numbers_of rows.new row ≡ [] }
    ensures rooms { (row : ℕ) → room_of rows.new row ≡ room_of rows.old row }
{
    for row in 0..rows.len() {
        rows[row].forget();
    }
}
