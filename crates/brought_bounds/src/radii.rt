//! The radii of moats.

use lists::Items;

/// A radius for each terminal, in order.
pub type Radii = Items<u64>;
