//! Rows that rise slowly.

ghost use Rattle.std.specs.Prelude.{◌≡◌, All, IsTrue, length};
ghost use Rattle.overflow_bounds.specs.Links.{IsInside};
ghost use Rattle.overflow_bounds.specs.NodeRows.{LowersTo, RisesAlongLink};

use crate::link::Link;

/// Lowers numbers, so that along no link one is greater than the other and what the link costs. If that takes longer than it
/// can for a graph of so many nodes, all are 0.
pub(crate) fn settle(row: &mut [u64], links: &[Link])
    requires inside { All (IsInside (length row.old)) links.now }
    ensures lowered { LowersTo row.old row.new }
    ensures rises { All (RisesAlongLink row.new) links.now }
{
    for _ in 0..row.len() {
        if lower_forth(row, links) || lower_back(row, links) {
            return;
        }
    }
    row.fill(0);
}

/// Lowers numbers along each link, and tells whether all were low enough.
fn lower_forth(row: &mut [u64], links: &[Link]) -> bool
    requires inside { All (IsInside (length row.old)) links.now }
    ensures lowered { LowersTo row.old row.new }
    ensures rises { IsTrue result → All (RisesAlongLink row.new) links.now }
{
    let mut all_low = true;
    for link in links {
        if !lower_along(row, *link) {
            all_low = false;
        }
    }
    all_low
}

/// The same from the last link to the first, for what goes that way.
fn lower_back(row: &mut [u64], links: &[Link]) -> bool
    requires inside { All (IsInside (length row.old)) links.now }
    ensures lowered { LowersTo row.old row.new }
    ensures rises { IsTrue result → All (RisesAlongLink row.new) links.now }
{
    let mut all_low = true;
    for behind in 0..links.len() {
        if !lower_along(row, links[links.len() - 1 - behind]) {
            all_low = false;
        }
    }
    all_low
}

/// Lowers the number of either end of a link to that of the other and what the link costs, and tells whether both were low
/// enough.
fn lower_along(row: &mut [u64], link: Link) -> bool
    requires inside { IsInside (length row.old) link }
    ensures lowered { LowersTo row.old row.new }
    ensures same { IsTrue result → row.new ≡ row.old }
    ensures rises { IsTrue result → RisesAlongLink row.old link }
{
    let one = row[link.one as usize];
    let other = row[link.other as usize];
    let from_one = one.saturating_add(link.cost);
    let from_other = other.saturating_add(link.cost);
    if from_one < other {
        row[link.other as usize] = from_one;
        return false;
    }
    if from_other < one {
        row[link.one as usize] = from_other;
        return false;
    }
    true
}
