//! The limits of prices.

use grid_base::MAX_LAYERS;

/// The last index of the price table, and the index of the greatest price.
pub const LAST_INDEX: u32 = 255;

/// The greatest price of a price list.
pub const MAX_PRICE: u32 = 1 << 15;

/// The greatest load of a resource.
pub const MAX_LOAD: u64 = 1 << 62;

/// The greatest scale.
pub const MAX_SCALE: u32 = 16;

/// The greatest wirelength that may be given as a budget.
pub const MAX_BUDGET: u64 = 1 << 42;

/// The most layers of a grid.
pub const LAYERS: usize = MAX_LAYERS as usize;
