//! The parties of a core.

use crate::party::Party;
use lists::Items;

/// Parties, in the order in which they began. One that was joined into another keeps its place.
pub type Parties = Items<Party>;
