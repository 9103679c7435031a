//! The name of a net.

use lists::Items;

/// The bytes of a net's name.
pub type Name = Items<u8>;
