//! Why words gave no command.

ghost use Rattle.std.specs.Prelude.{◌≡◌};
ghost use Rattle.clap.specs.Words.{kind_of};
ghost use Rattle.clap.specs.declared.error.kind.ErrorKind.TheVariants.{OutOfMemory};
ghost use Rattle.command_words.specs.declared.words_error.WordsError.TheVariants.{NoMemory};

use clap::Error as ParseError;
use clap::error::ErrorKind;
use std::alloc::AllocError;
use thiserror::Error;

/// Why words gave no command.
#[derive(Clone, Copy, Debug, Drop, PartialEq, Eq, Error)]
pub enum WordsError {
    /// The words are no command.
    #[error("no command")]
    Refused,
    /// Want of memory.
    #[error("out of memory")]
    NoMemory,
}

impl From<AllocError> for WordsError {
    ghost from_gives = { λ _ e. e ≡ NoMemory };

    fn from(_e: AllocError) -> WordsError {
        WordsError::NoMemory
    }
}

impl From<ParseError> for WordsError {
    ghost from_gives = { λ fault e. kind_of fault ≡ OutOfMemory → e ≡ NoMemory };

    fn from(fault: ParseError) -> WordsError {
        match fault.kind() {
            ErrorKind::OutOfMemory => WordsError::NoMemory,
            _ => WordsError::Refused,
        }
    }
}
