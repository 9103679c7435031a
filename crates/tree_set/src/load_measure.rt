//! The measure of loads.

ghost use Rattle.std.specs.Prelude.{◌≡◌, ◌*◌, ◌≤◌, ℕ, length, slice_index};
ghost use Rattle.grid_base.specs.Numbers.{vertices};
ghost use Rattle.grid_graph.specs.Grids.{size_of};
ghost use Rattle.tree_set.specs.Limits.{max_routing_load};
ghost use Rattle.tree_set.specs.Measures as measures;

use crate::measure::Measure;
use crate::overflow::overflow_of;
use crate::peak::peak_of;
use grid_graph::Grid;

/// The measure of a routing with these loads, one per edge number, and this wirelength.
pub fn measure_of_loads(grid: &Grid, loads: &[u64], wirelength: u64) -> Measure
    requires table { length loads.now ≡ 2 * vertices (size_of grid.now) }
    requires room { (e : ℕ) → slice_index loads.now e ≤ max_routing_load }
    ensures overflow { (load : ℕ → ℕ) → ((e : ℕ) → slice_index loads.now e ≡ load e) → result.overflow ≡ measures.overflow grid.now load }
    ensures wirelength { result.wirelength ≡ wirelength }
    ensures peak { (load : ℕ → ℕ) → ((e : ℕ) → slice_index loads.now e ≡ load e) → measures.IsPeak grid.now load result.peak }
{
    Measure {
        overflow: overflow_of(grid, loads),
        wirelength,
        peak: peak_of(grid, loads),
    }
}
