//! Which terminals are near one another.

ghost use Rattle.std.specs.Prelude.{◌≡◌, ◌≤◌, ◌<◌, ◌^◌, All, IfOk, length};
ghost use Rattle.std.specs.List.Sorted.{IsPermutation};
ghost use Rattle.grid_base.specs.Numbers.{IsVertex};
ghost use Rattle.steiner_tables.specs.Masks.{few_terminals};

use grid_base::{NoMemory, Place, Size, Vertex};
use std::alloc::Global;
use steiner_tables::has_terminal;

/// The terminals in another order: last comes one with the greatest sum of grid distances to the others. It is the root of
/// a table, whose rows are those of the others, and any order is right.
pub(crate) fn with_far_root(
    alloc: Global,
    size: Size,
    terminals: &[Vertex],
) -> Result<Vec<Vertex>, NoMemory>
    requires terminals { All (λ v. IsVertex size v.0) terminals.now }
    requires some { 1 ≤ length terminals.now }
    requires few { length terminals.now ≤ few_terminals }
    ensures { IfOk result (λ ordered. IsPermutation terminals.now ordered.items) }
{
    let far = farthest(size, terminals);
    let last = terminals.len() - 1;
    let mut ordered = copy_of(alloc, terminals)?;
    ordered.swap(far, last);
    Ok(ordered)
}

/// The same terminals once more.
fn copy_of(alloc: Global, terminals: &[Vertex]) -> Result<Vec<Vertex>, NoMemory>
    ensures { IfOk result (λ copied. copied.items ≡ terminals.now) }
{
    let mut copied = Vec::new(alloc);
    for terminal in terminals {
        copied.push(*terminal)?;
    }
    Ok(copied)
}

/// The place of a terminal with the greatest sum of grid distances to the others.
fn farthest(size: Size, terminals: &[Vertex]) -> usize
    requires terminals { All (λ v. IsVertex size v.0) terminals.now }
    requires some { 1 ≤ length terminals.now }
    requires few { length terminals.now ≤ few_terminals }
    ensures { result < length terminals.now }
{
    let mut far = 0;
    let mut greatest = 0;
    for i in 0..terminals.len() {
        let sum = distances_from(size, terminals, size.place_of(terminals[i]));
        if sum > greatest {
            far = i;
            greatest = sum;
        }
    }
    far
}

/// The sum of the grid distances of the terminals from a place.
fn distances_from(size: Size, terminals: &[Vertex], here: Place) -> u64
    requires terminals { All (λ v. IsVertex size v.0) terminals.now }
    requires few { length terminals.now ≤ few_terminals }
{
    let mut sum = 0;
    for j in 0..terminals.len() {
        sum += grid_distance(here, size.place_of(terminals[j]));
    }
    sum
}

/// The place of a terminal outside this mask that is nearest by grid distance to those in it.
pub(crate) fn next_nearest(size: Size, terminals: &[Vertex], joined: u32) -> usize
    requires terminals { All (λ v. IsVertex size v.0) terminals.now }
    requires some { 1 ≤ length terminals.now }
    requires few { length terminals.now ≤ few_terminals }
    ensures { result < length terminals.now }
{
    let mut near = 0;
    let mut least = u64::MAX;
    for j in 0..terminals.len() {
        let far = distance_to_mask(size, terminals, joined, size.place_of(terminals[j]));
        if far < least && !has_terminal(joined, j as u32) {
            near = j;
            least = far;
        }
    }
    near
}

/// The grid distance of a place to the nearest terminal of a mask.
fn distance_to_mask(size: Size, terminals: &[Vertex], mask: u32, here: Place) -> u64
    requires terminals { All (λ v. IsVertex size v.0) terminals.now }
    requires few { length terminals.now ≤ few_terminals }
{
    let mut least = u64::MAX;
    for j in 0..terminals.len() {
        if has_terminal(mask, j as u32) {
            least = least.min(grid_distance(here, size.place_of(terminals[j])));
        }
    }
    least
}

/// The grid distance of two places.
pub(crate) fn grid_distance(one: Place, other: Place) -> u64
    ensures { result < 2 ^ 34 }
{
    u64::from(one.col.abs_diff(other.col))
        + u64::from(one.row.abs_diff(other.row))
        + u64::from(one.layer.abs_diff(other.layer))
}
