//! What a row begins with.

ghost use Rattle.std.specs.Prelude.{◌≡◌, ◌<◌, ◌≤◌, ◌-◌, ◌↔◌, All, IsTrue, length};
ghost use Rattle.steiner_tables.specs.Masks.{AreParts};
ghost use Rattle.overflow_bounds.specs.NodeTables.{max_ends};
ghost use Rattle.overflow_bounds.specs.NodeRows.{AreBefore, LowersTo, HasOwn, IsWithinSplits, IsWithinSums};

use crate::node_row::NodeRow;

/// Lowers the numbers of a mask's row to 0 at the end that it is of alone, and to the least sum of two parts of the mask.
pub(crate) fn start(row: &mut [u64], ends: &[u32], rows: &[NodeRow], mask: usize)
    requires few { length ends.now ≤ max_ends }
    requires ends { All (λ n. n < length row.old) ends.now }
    requires some { 0 < mask }
    requires rows { mask ≤ length rows.now }
    requires before { AreBefore (length row.old) mask rows.now }
    ensures own { HasOwn ends.now mask row.new }
    ensures splits { IsWithinSplits rows.now mask row.new }
{
    start_at_end(row, ends, mask);
    lower_to_splits(row, rows, mask);
}

/// Lowers the number at an end to 0, if the mask is that of the end alone.
fn start_at_end(row: &mut [u64], ends: &[u32], mask: usize)
    requires few { length ends.now ≤ max_ends }
    requires ends { All (λ n. n < length row.old) ends.now }
    ensures own { HasOwn ends.now mask row.new }
{
    for place in 0..ends.len() {
        if mask == 1 << place {
            row[ends[place] as usize] = 0;
        }
    }
}

/// Lowers each number to the least sum of those of two parts of the mask. A split is looked at once, with the
/// lesser part first.
fn lower_to_splits(row: &mut [u64], rows: &[NodeRow], mask: usize)
    requires some { 0 < mask }
    requires rows { mask ≤ length rows.now }
    requires before { AreBefore (length row.old) mask rows.now }
    ensures lowered { LowersTo row.old row.new }
    ensures splits { IsWithinSplits rows.now mask row.new }
{
    for one in 1..mask {
        let other = mask - one;
        if one <= other && is_part(one, mask) {
            lower_to_sums(row, rows[one - 1].list(), rows[other - 1].list());
        }
    }
}

/// Whether a mask has all ends of another.
fn is_part(one: usize, mask: usize) -> bool
    requires some { 0 < one }
    requires less { one < mask }
    ensures { IsTrue result ↔ AreParts one (mask - one) mask }
{
    one & mask == one
}

/// Lowers each number to the sum of those in two other rows.
fn lower_to_sums(row: &mut [u64], one: &[u64], other: &[u64])
    requires one { length one.now ≡ length row.old }
    requires other { length other.now ≡ length row.old }
    ensures lowered { LowersTo row.old row.new }
    ensures sums { IsWithinSums one.now other.now row.new }
{
    for n in 0..row.len() {
        row[n] = row[n].min(one[n].saturating_add(other[n]));
    }
}
