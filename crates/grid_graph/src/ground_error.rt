//! Why a net has no ground.

ghost use Rattle.std.specs.Prelude.{◌≡◌};
ghost use Rattle.grid_graph.specs.declared.ground_error.GroundError.TheVariants.{NoMemory};
ghost use Rattle.grid_graph.specs.GroundErrors.{ground_error_number};

use crate::unreachable_net::UnreachableNet;
use std::alloc::AllocFailed;
use thiserror::Error;

/// Why a net has no ground.
#[derive(Debug, Drop, Clone, Copy, PartialEq, Eq, Error)]
pub enum GroundError {
    /// Open and choked edges with vias don't join the net's terminals.
    #[error("{0}")]
    Unreachable(UnreachableNet),
    /// There was no memory for the components.
    #[error("want of memory")]
    NoMemory,
}

impl GroundError {
    /// Its number among the faults that a report names. Want of memory has none.
    pub fn number(self) -> Option<u32>
        ensures { result ≡ ground_error_number self }
    {
        match self {
            GroundError::Unreachable(net) => Some(net.number()),
            GroundError::NoMemory => None,
        }
    }
}

impl From<grid_base::NoMemory> for GroundError {
    ghost from_gives = { λ _ e. e ≡ NoMemory };

    fn from(_: grid_base::NoMemory) -> Self {
        GroundError::NoMemory
    }
}

impl<T: Drop> From<AllocFailed<T>> for GroundError {
    ghost from_gives = { λ _ e. e ≡ NoMemory };

    fn from(_: AllocFailed<T>) -> Self {
        GroundError::NoMemory
    }
}
