//! Indices of resources.

ghost use Rattle.std.specs.Prelude.{◌≡◌, ◌≤◌};
ghost use Rattle.edge_prices.specs.Limits.{IsScale};
ghost use Rattle.grid_graph.specs.Limits.{max_load};
ghost use Rattle.edge_prices.specs.Prices.{index};

/// The index of a resource: how many eighths of its capacity are in use at this scale, rounded down.
pub fn index_at(capacity: u64, load: u64, scale: u32) -> u128
    requires capacity { 1 ≤ capacity }
    requires load { load ≤ max_load }
    requires scale { IsScale scale }
    ensures { result ≡ index capacity load scale }
{
    // A division of 64 bits is several times as fast, and hardly any load is beyond it.
    match load.checked_mul(8 * u64::from(scale)) {
        Some(eighths) => u128::from(eighths / capacity),
        None => 8 * u128::from(scale) * u128::from(load) / u128::from(capacity),
    }
}
