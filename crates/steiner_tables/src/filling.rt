//! The row of a mask, from the rows of the smaller ones, or of a terminal alone.

ghost use Rattle.std.specs.Prelude.{◌≡◌, ◌≢◌, ◌<◌, ◌≤◌, ◌-◌, ℕ, All, length};
ghost use Rattle.grid_base.specs.Numbers.{IsVertex, vertices};
ghost use Rattle.label_search.specs.Founds.{FindsMore};
ghost use Rattle.label_search.specs.Rows.{size_in};
ghost use Rattle.label_search.specs.Stamped.{most, far};
ghost use Rattle.steiner_tables.specs.Kept.{masks_in, kept_len};
ghost use Rattle.steiner_tables.specs.LoneRows.{IsLoneRow};
ghost use Rattle.steiner_tables.specs.Masks.{few_terminals, all_of, single};
ghost use Rattle.steiner_tables.specs.RowWork.{table_of};
ghost use Rattle.steiner_tables.specs.Tables.{IsPrunedTable};

use crate::family::Family;
use crate::kept_rows::KeptRows;
use crate::rest_of::RestOf;
use crate::seeds::{seed, seed_alone};
use grid_base::Vertex;
use grid_graph::Weights;
use label_search::{Row, exhaust};

/// Finds the numbers of one mask, where those of all smaller ones are found: but for those that together with the family's
/// bound for the other terminals are above the limit.
pub fn fill<W: Weights, F: Family>(
    row: &mut Row,
    rows: &mut KeptRows,
    weights: &W,
    family: &F,
    terminals: &[Vertex],
    mask: u32,
    limit: u64,
)
    requires size { size_in row.old ≡ W.size weights.now }
    requires family_size { F.size family.now ≡ W.size weights.now }
    requires family_terminals { F.terminals family.now ≡ terminals.now }
    requires terminals { All (λ v. IsVertex (W.size weights.now) v.0) terminals.now }
    requires few { length terminals.now ≤ few_terminals }
    requires some { 0 < mask }
    requires room { mask ≤ masks_in rows.old }
    requires last { mask < all_of terminals.now }
    requires limit { limit ≤ most }
    requires wide { rows.old.room ≡ vertices (size_in row.old) }
    requires kept { (m : ℕ) → kept_len rows.old m ≤ row.old.found.len }
    requires table { IsPrunedTable (W.size weights.now) (W.pieces weights.now) terminals.now (mask - 1) (F.low family.now) limit far (table_of rows.old row.old) }
    ensures found { FindsMore row.old.found row.new.found }
    ensures masks { masks_in rows.new ≡ masks_in rows.old }
    ensures wide { rows.new.room ≡ rows.old.room }
    ensures kept { (m : ℕ) → kept_len rows.new m ≤ row.new.found.len }
    ensures table { IsPrunedTable (W.size weights.now) (W.pieces weights.now) terminals.now mask (F.low family.now) limit far (table_of rows.new row.new) }
{
    let all = (1 << terminals.len() as u32) - 1;
    let rest = RestOf {
        family,
        mask: all - mask,
    };
    row.clear();
    seed(row, rows, &rest, terminals, mask, limit);
    exhaust(row, weights, &rest, limit);
    rows.store(mask, row.numbers());
}

/// Finds the distances from one of several terminals alone, whatever the rows of other masks are: but for those that together
/// with the family's bound for the other terminals are above the limit.
pub fn fill_alone<W: Weights, F: Family>(
    row: &mut Row,
    rows: &mut KeptRows,
    weights: &W,
    family: &F,
    terminals: &[Vertex],
    place: u32,
    limit: u64,
)
    requires size { size_in row.old ≡ W.size weights.now }
    requires family_size { F.size family.now ≡ W.size weights.now }
    requires family { F.pieces family.now ≡ W.pieces weights.now }
    requires family_terminals { F.terminals family.now ≡ terminals.now }
    requires terminals { All (λ v. IsVertex (W.size weights.now) v.0) terminals.now }
    requires several { 2 ≤ length terminals.now }
    requires few { length terminals.now ≤ few_terminals }
    requires place { place < length terminals.now }
    requires room { single place ≤ masks_in rows.old }
    requires limit { limit ≤ most }
    requires wide { rows.old.room ≡ vertices (size_in row.old) }
    requires kept { (m : ℕ) → kept_len rows.old m ≤ row.old.found.len }
    ensures found { FindsMore row.old.found row.new.found }
    ensures masks { masks_in rows.new ≡ masks_in rows.old }
    ensures wide { rows.new.room ≡ rows.old.room }
    ensures kept { (m : ℕ) → kept_len rows.new m ≤ row.new.found.len }
    ensures others { (m v : ℕ) → 0 < m → m ≢ single place → table_of rows.new row.new m v ≡ table_of rows.old row.old m v }
    ensures alone { IsLoneRow (W.size weights.now) (W.pieces weights.now) terminals.now (F.low family.now) limit (table_of rows.new row.new) place }
{
    let all = (1 << terminals.len() as u32) - 1;
    let mask = 1 << place;
    let rest = RestOf {
        family,
        mask: all - mask,
    };
    row.clear();
    seed_alone(row, &rest, terminals, mask, limit);
    exhaust(row, weights, &rest, limit);
    rows.store(mask, row.numbers());
}
