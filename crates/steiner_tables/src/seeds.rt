//! What the row of a mask begins with.

ghost use Rattle.std.specs.Prelude.{◌≡◌, ◌<◌, ◌≤◌, ◌+◌, ◌-◌, ◌^◌, ℕ, List, All, length};
ghost use Rattle.grid_base.specs.declared.vertex.Vertex.{Vertex as Terminal};
ghost use Rattle.grid_base.specs.Numbers.{IsVertex};
ghost use Rattle.steiner_tables.specs.declared.kept_rows.KeptRows.{KeptRows as Kept};
ghost use Rattle.label_search.specs.Founds.{FindsMore};
ghost use Rattle.steiner_tables.specs.Kept.{masks_in, kept_len};
ghost use Rattle.steiner_tables.specs.Masks.{few_terminals, AreParts};
ghost use Rattle.label_search.specs.Rows.{size_in, number_in, IsWaiting};
ghost use Rattle.steiner_tables.specs.RowWork.{IsSeeded, AreOffered, IsSumOffered, AreSplitsOffered, table_of};
ghost use Rattle.label_search.specs.Runs.{IsSearch};
ghost use Rattle.label_search.specs.Stamped.{far};

use crate::kept_rows::KeptRows;
use crate::terminal_masks::is_part;
use grid_base::{Spot, Vertex};
use label_search::{Bound, FAR, Row, offer};

/// Offers a terminal 0 where the mask is its own, and each vertex what two parts of the mask weigh there together.
pub(crate) fn seed<B: Bound>(
    row: &mut Row,
    rows: &KeptRows,
    bound: &B,
    terminals: &[Vertex],
    mask: u32,
    limit: u64,
)
    requires size { B.size bound.now ≡ size_in row.old }
    requires kept { (m : ℕ) → kept_len rows.now m ≤ row.old.found.len }
    requires terminals { All (λ v. IsVertex (size_in row.old) v.0) terminals.now }
    requires few { length terminals.now ≤ few_terminals }
    requires some { 0 < mask }
    requires mask { mask ≤ masks_in rows.now }
    requires none { (v : ℕ) → number_in row.old v ≡ far }
    requires idle { (v key : ℕ) → ¬ IsWaiting row.old v key }
    ensures found { FindsMore row.old.found row.new.found }
    ensures seeded { IsSeeded rows.now terminals.now mask (B.rest bound.now) limit row.new }
    ensures alone { AreOffered terminals.now mask (B.rest bound.now) limit (number_in row.new) (length terminals.now) }
    ensures splits { AreSplitsOffered (table_of rows.now row.new) mask (B.rest bound.now) limit (number_in row.new) mask }
{
    seed_alone(row, bound, terminals, mask, limit);
    for one in 1..mask {
        if one <= mask - one && is_part(one, mask) {
            seed_split(row, rows, bound, one, mask, limit);
        }
    }
}

/// Offers a terminal 0 where the mask is its own.
pub(crate) fn seed_alone<B: Bound>(
    row: &mut Row,
    bound: &B,
    terminals: &[Vertex],
    mask: u32,
    limit: u64,
)
    requires size { B.size bound.now ≡ size_in row.old }
    requires terminals { All (λ v. IsVertex (size_in row.old) v.0) terminals.now }
    requires few { length terminals.now ≤ few_terminals }
    requires search { IsSearch (B.rest bound.now) limit row.old }
    ensures search { IsSearch (B.rest bound.now) limit row.new }
    ensures found { FindsMore row.old.found row.new.found }
    ensures seeded { (rows : Kept) → IsSeeded rows terminals.now mask (B.rest bound.now) limit row.old
        → IsSeeded rows terminals.now mask (B.rest bound.now) limit row.new }
    ensures alone { AreOffered terminals.now mask (B.rest bound.now) limit (number_in row.new) (length terminals.now) }
{
    for place in 0..terminals.len() as u32 {
        if mask == 1 << place {
            let at = Spot::of(row.size(), terminals[place as usize]);
            offer(row, bound, limit, at, 0);
        }
    }
}

/// Offers each vertex the sum of its numbers for a part of the mask and for the rest of it.
fn seed_split<B: Bound>(row: &mut Row, rows: &KeptRows, bound: &B, one: u32, mask: u32, limit: u64)
    requires size { B.size bound.now ≡ size_in row.old }
    requires kept { (m : ℕ) → kept_len rows.now m ≤ row.old.found.len }
    requires search { IsSearch (B.rest bound.now) limit row.old }
    requires some { 0 < one }
    requires less { one < mask }
    requires mask { mask ≤ masks_in rows.now }
    requires parts { AreParts one (mask - one) mask }
    ensures search { IsSearch (B.rest bound.now) limit row.new }
    ensures found { FindsMore row.old.found row.new.found }
    ensures falls { (v : ℕ) → number_in row.new v ≤ number_in row.old v }
    ensures seeded { (terminals : List Terminal) → IsSeeded rows.now terminals mask (B.rest bound.now) limit row.old
        → IsSeeded rows.now terminals mask (B.rest bound.now) limit row.new }
    ensures offered { (v : ℕ) → IsSumOffered (table_of rows.now row.new) one (mask - one) (B.rest bound.now) limit
        (number_in row.new) v }
{
    for index in 0..rows.shared_len(one, mask - one) {
        let first = rows.number(one, index);
        let second = rows.number(mask - one, index);
        if first < FAR && second < FAR {
            let at = row.spot(index);
            offer(row, bound, limit, at, first + second);
        }
    }
}
