//! Sums along lines.

ghost use Rattle.std.specs.Prelude.{◌≡◌, ◌*◌, ◌^◌, ◌<◌, ℕ, length, slice_index};
ghost use Rattle.grid_base.specs.Numbers.{vertices};
ghost use Rattle.straight_runs.specs.Differences as words;
ghost use Rattle.straight_runs.specs.Differences.{AreDifferences};

use grid_base::{Axis, Edge, Size};

/// By how much the number of an edge rises to that of the next one on its line.
fn edge_stride(size: Size, edge: Edge) -> u32
    ensures { result ≡ words.edge_stride size edge.0 }
{
    match edge.axis() {
        Axis::X => 2,
        Axis::Y => 2 * size.cols(),
    }
}

/// Puts the loads in the place of their differences.
pub(crate) fn sum_up(size: Size, table: &mut [u64])
    requires { length table.old ≡ 2 * vertices size }
    ensures { (load : ℕ → ℕ) → AreDifferences size load table.old
        → ((e : ℕ) → e < 2 * vertices size → load e < 2 ^ 64)
        → (e : ℕ) → e < 2 * vertices size → slice_index table.new e ≡ load e }
{
    for e in 0..2 * size.vertices() {
        let stride = edge_stride(size, Edge(e));
        if e >= stride {
            table[e as usize] = table[e as usize].wrapping_add(table[(e - stride) as usize]);
        }
    }
}
