//! Moats.

use crate::radii::Radii;

/// For each terminal a moat around it, of this radius.
#[derive(Drop)]
pub struct Moats {
    pub radii: Radii,
}
