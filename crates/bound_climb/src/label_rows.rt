//! Labels as the rows of a table.

ghost use Rattle.std.specs.Prelude.{◌≡◌, ◌<◌, ◌≤◌, ℕ, IfOk};
ghost use Rattle.grid_base.specs.Numbers.{IsVertex};
ghost use Rattle.shortest_paths.specs.LabelWords.{labels_size, label_of, masks_of};
ghost use Rattle.label_search.specs.Stamped.{far};
ghost use Rattle.brought_bounds.specs.RowLists.{lists_of};
ghost use Rattle.bound_climb.specs.LabelRows.{label_row, label_rows};

use brought_bounds::MAX_NUMBER;
use grid_base::{NoMemory, Vertex};
use shortest_paths::Labels;
use std::alloc::Global;

/// The labels of the first so many masks, a row for each. The greatest number of a table stands where there is no label.
pub(crate) fn label_rows(
    alloc: Global,
    labels: &Labels,
    count: u32,
) -> Result<Vec<Vec<u64>>, NoMemory>
    requires masks { count ≤ masks_of labels.now }
    requires within { (mask v : ℕ) → label_of labels.now mask v ≤ far }
    ensures { IfOk result (λ rows. lists_of rows.items ≡ label_rows labels.now count) }
{
    let mut rows = Vec::with_capacity(alloc, count as usize)?;
    for place in 0..count {
        rows.push(label_row(alloc, labels, place + 1)?)?;
    }
    Ok(rows)
}

/// The labels of a mask at all vertices.
fn label_row(alloc: Global, labels: &Labels, mask: u32) -> Result<Vec<u64>, NoMemory>
    requires some { 0 < mask }
    requires mask { mask ≤ masks_of labels.now }
    requires within { (m v : ℕ) → label_of labels.now m v ≤ far }
    ensures { IfOk result (λ row. row.items ≡ label_row labels.now mask) }
{
    let count = labels.size().vertices();
    let mut row = Vec::with_capacity(alloc, count as usize)?;
    for v in 0..count {
        row.push(label_or_greatest(labels, mask, Vertex(v)))?;
    }
    Ok(row)
}

/// The label of a mask at a vertex, or the greatest number of a table where there is none.
fn label_or_greatest(labels: &Labels, mask: u32, v: Vertex) -> u64
    requires some { 0 < mask }
    requires mask { mask ≤ masks_of labels.now }
    requires vertex { IsVertex (labels_size labels.now) v.0 }
    requires within { label_of labels.now mask v.0 ≤ far }
    ensures { result ≡ label_of labels.now mask v.0 }
{
    labels.label(mask, v).unwrap_or(MAX_NUMBER)
}
