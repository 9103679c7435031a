//! The prices of a certificate.

use lists::Items;

/// The prices of the open edges, in rising order of their numbers.
pub type PriceList = Items<u32>;
