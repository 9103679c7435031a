//! Why a step of the judge stopped.

ghost use Rattle.std.specs.Prelude.{◌≡◌};
ghost use Rattle.route_judge.specs.declared.stop.Stop.TheVariants as stops;

use crate::reason::Reason;
use std::alloc::{AllocError, AllocFailed};

/// Why a step of the judge stopped.
#[derive(Debug, Drop, Clone, Copy, PartialEq, Eq)]
pub(crate) enum Stop {
    /// The first reason that applies.
    Refused(Reason),
    /// Want of memory.
    NoMemory,
}

impl From<grid_base::NoMemory> for Stop {
    ghost from_gives = { λ _ e. e ≡ stops.NoMemory };

    fn from(_: grid_base::NoMemory) -> Self {
        Stop::NoMemory
    }
}

impl<T: Drop> From<AllocFailed<T>> for Stop {
    ghost from_gives = { λ _ e. e ≡ stops.NoMemory };

    fn from(_: AllocFailed<T>) -> Self {
        Stop::NoMemory
    }
}

impl From<AllocError> for Stop {
    ghost from_gives = { λ _ e. e ≡ stops.NoMemory };

    fn from(_: AllocError) -> Self {
        Stop::NoMemory
    }
}
