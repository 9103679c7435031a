//! Why a grid was not made.

use thiserror::Error;

/// Why a grid was not made.
#[derive(Debug, Drop, Clone, Copy, PartialEq, Eq, Error)]
pub enum GridRefusal {
    /// There was no memory for the table of capacities.
    #[error("want of memory")]
    NoMemory,
}

impl From<grid_base::NoMemory> for GridRefusal {
    fn from(_: grid_base::NoMemory) -> Self {
        GridRefusal::NoMemory
    }
}
