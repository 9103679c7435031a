//! Why no edits were read.

ghost use Rattle.std.specs.Prelude.{◌≡◌};
ghost use Rattle.edit_text.specs.declared.edit_text_error.EditTextError.TheVariants.{Syntax, NoMemory};
ghost use Rattle.text_scan.specs.Faults.{fault_place};

use std::alloc::{AllocError, AllocFailed};
use text_scan::NumberFault;
use thiserror::Error;

/// Why no edits were read.
#[derive(Clone, Copy, Debug, Drop, PartialEq, Eq, Error)]
pub enum EditTextError {
    /// The text is no text of edits. `at` is the place of the first token that is none of the form, counted from 0, or the
    /// text's length where a token is missing.
    #[error("no text of edits at byte {at}")]
    Syntax { at: usize },
    /// Want of memory.
    #[error("out of memory")]
    NoMemory,
}

impl EditTextError {
    ghost use Rattle.edit_text.specs.EditFaults.{edit_error_number};

    /// The number of the refusal; none for want of memory.
    pub fn number(self) -> Option<u32>
        ensures { result ≡ edit_error_number self }
    {
        match self {
            EditTextError::Syntax { .. } => Some(61),
            EditTextError::NoMemory => None,
        }
    }
}

impl From<NumberFault> for EditTextError {
    ghost from_gives = { λ fault e. e ≡ Syntax (fault_place fault) };

    fn from(fault: NumberFault) -> EditTextError {
        EditTextError::Syntax { at: fault.place() }
    }
}

impl From<AllocError> for EditTextError {
    ghost from_gives = { λ _ e. e ≡ NoMemory };

    fn from(_e: AllocError) -> EditTextError {
        EditTextError::NoMemory
    }
}

impl<T: Drop> From<AllocFailed<T>> for EditTextError {
    ghost from_gives = { λ _ e. e ≡ NoMemory };

    fn from(_e: AllocFailed<T>) -> EditTextError {
        EditTextError::NoMemory
    }
}
