//! Why no routes were read.

ghost use Rattle.std.specs.Prelude.{◌≡◌};
ghost use Rattle.route_text.specs.declared.route_error.RouteError.TheVariants.{Syntax, NoMemory};
ghost use Rattle.text_scan.specs.Faults.{fault_place};

use std::alloc::{AllocError, AllocFailed};
use text_scan::NumberFault;
use thiserror::Error;

/// Why no routes were read.
#[derive(Clone, Copy, Debug, Drop, PartialEq, Eq, Error)]
pub enum RouteError {
    /// The text is no list of blocks. `at` is the place of the first byte after blanks at which the next part can't be
    /// read, counted from 0, or the text's length.
    #[error("no route text at byte {at}")]
    Syntax { at: usize },
    /// Want of memory.
    #[error("out of memory")]
    NoMemory,
}

impl RouteError {
    ghost use Rattle.route_text.specs.Faults.{route_error_number};

    /// The number of the refusal; none for want of memory.
    pub fn number(self) -> Option<u32>
        ensures { result ≡ route_error_number self }
    {
        match self {
            RouteError::Syntax { .. } => Some(31),
            RouteError::NoMemory => None,
        }
    }
}

impl From<NumberFault> for RouteError {
    ghost from_gives = { λ fault e. e ≡ Syntax (fault_place fault) };

    fn from(fault: NumberFault) -> RouteError {
        RouteError::Syntax { at: fault.place() }
    }
}

impl From<AllocError> for RouteError {
    ghost from_gives = { λ _ e. e ≡ NoMemory };

    fn from(_e: AllocError) -> RouteError {
        RouteError::NoMemory
    }
}

impl<T: Drop> From<AllocFailed<T>> for RouteError {
    ghost from_gives = { λ _ e. e ≡ NoMemory };

    fn from(_e: AllocFailed<T>) -> RouteError {
        RouteError::NoMemory
    }
}
