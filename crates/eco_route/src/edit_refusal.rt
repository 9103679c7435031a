//! Why an edit was not made.

ghost use Rattle.std.specs.Prelude.{◌≡◌};
ghost use Rattle.eco_route.specs.declared.edit_refusal.EditRefusal.TheVariants.{Fault, NoMemory};

use crate::edit_fault::EditFault;
use std::alloc::{AllocError, AllocFailed};
use thiserror::Error;

/// Why an edit was not made.
#[derive(Clone, Copy, Debug, Drop, PartialEq, Eq, Error)]
pub enum EditRefusal {
    /// It does not fit the design.
    #[error("{0}")]
    Fault(EditFault),
    /// Want of memory.
    #[error("out of memory")]
    NoMemory,
}

impl From<EditFault> for EditRefusal {
    ghost from_gives = { λ fault e. e ≡ Fault fault };

    fn from(fault: EditFault) -> EditRefusal {
        EditRefusal::Fault(fault)
    }
}

impl From<grid_base::NoMemory> for EditRefusal {
    ghost from_gives = { λ _ e. e ≡ NoMemory };

    fn from(_: grid_base::NoMemory) -> EditRefusal {
        EditRefusal::NoMemory
    }
}

impl From<AllocError> for EditRefusal {
    ghost from_gives = { λ _ e. e ≡ NoMemory };

    fn from(_: AllocError) -> EditRefusal {
        EditRefusal::NoMemory
    }
}

impl<T: Drop> From<AllocFailed<T>> for EditRefusal {
    ghost from_gives = { λ _ e. e ≡ NoMemory };

    fn from(_: AllocFailed<T>) -> EditRefusal {
        EditRefusal::NoMemory
    }
}
