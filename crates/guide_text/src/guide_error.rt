//! Why no guides were read.

ghost use Rattle.std.specs.Prelude.{◌≡◌};
ghost use Rattle.guide_text.specs.declared.guide_error.GuideError.TheVariants.{Syntax, NoMemory};
ghost use Rattle.text_scan.specs.Faults.{fault_place};

use std::alloc::{AllocError, AllocFailed};
use text_scan::NumberFault;
use thiserror::Error;

/// Why no guides were read.
#[derive(Clone, Copy, Debug, Drop, PartialEq, Eq, Error)]
pub enum GuideError {
    /// The text is no list of guides. `at` is the place of the first token that is none of the form, counted from 0, or the
    /// text's length where a token is missing.
    #[error("no text of guides at byte {at}")]
    Syntax { at: usize },
    /// Want of memory.
    #[error("out of memory")]
    NoMemory,
}

impl GuideError {
    ghost use Rattle.guide_text.specs.GuideFaults.{guide_error_number};

    /// The number of the refusal; none for want of memory.
    pub fn number(self) -> Option<u32>
        ensures { result ≡ guide_error_number self }
    {
        match self {
            GuideError::Syntax { .. } => Some(71),
            GuideError::NoMemory => None,
        }
    }
}

impl From<NumberFault> for GuideError {
    ghost from_gives = { λ fault e. e ≡ Syntax (fault_place fault) };

    fn from(fault: NumberFault) -> GuideError {
        GuideError::Syntax { at: fault.place() }
    }
}

impl From<AllocError> for GuideError {
    ghost from_gives = { λ _ e. e ≡ NoMemory };

    fn from(_e: AllocError) -> GuideError {
        GuideError::NoMemory
    }
}

impl<T: Drop> From<AllocFailed<T>> for GuideError {
    ghost from_gives = { λ _ e. e ≡ NoMemory };

    fn from(_e: AllocFailed<T>) -> GuideError {
        GuideError::NoMemory
    }
}
