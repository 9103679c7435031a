//! Why no design was read.

ghost use Rattle.std.specs.Prelude.{◌≡◌};
ghost use Rattle.design_tokens.specs.declared.input_error.InputError.TheVariants.{Input, NoMemory};
ghost use Rattle.design_tokens.specs.Refusals.{refusal_of};

use crate::input_fault::InputFault;
use crate::wanted::Wanted;
use grid_graph::GridRefusal;
use std::alloc::{AllocError, AllocFailed};
use text_scan::NumberFault;
use thiserror::Error;

/// Why no design was read.
#[derive(Clone, Copy, Debug, Drop, PartialEq, Eq, Error)]
pub enum InputError {
    /// The text is no design.
    #[error("{0}")]
    Input(InputFault),
    /// Want of memory.
    #[error("out of memory")]
    NoMemory,
}

impl From<InputFault> for InputError {
    ghost from_gives = { λ fault e. e ≡ Input fault };

    fn from(fault: InputFault) -> InputError {
        InputError::Input(fault)
    }
}

impl From<NumberFault> for InputError {
    ghost from_gives = { λ fault e. e ≡ Input (refusal_of fault) };

    fn from(fault: NumberFault) -> InputError {
        InputError::Input(match fault {
            NumberFault::OutOfRange { at } => InputFault::Range { at },
            NumberFault::NotNumber { at } | NumberFault::End { at } => InputFault::Syntax {
                at,
                wanted: Wanted::Number,
            },
        })
    }
}

impl From<AllocError> for InputError {
    ghost from_gives = { λ _ e. e ≡ NoMemory };

    fn from(_e: AllocError) -> InputError {
        InputError::NoMemory
    }
}

impl<T: Drop> From<AllocFailed<T>> for InputError {
    ghost from_gives = { λ _ e. e ≡ NoMemory };

    fn from(_e: AllocFailed<T>) -> InputError {
        InputError::NoMemory
    }
}

impl From<grid_base::NoMemory> for InputError {
    ghost from_gives = { λ _ e. e ≡ NoMemory };

    fn from(_: grid_base::NoMemory) -> InputError {
        InputError::NoMemory
    }
}

impl From<GridRefusal> for InputError {
    ghost from_gives = { λ _ e. e ≡ NoMemory };

    fn from(refusal: GridRefusal) -> InputError {
        match refusal {
            GridRefusal::NoMemory => InputError::NoMemory,
        }
    }
}
