//! What a party loaded.

use crate::loaded::Loaded;
use lists::Items;

/// All loads of a party, and of those that were joined into it, the first load first.
pub type History = Items<Loaded>;
