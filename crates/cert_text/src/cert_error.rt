//! Why no certificate was read.

ghost use Rattle.std.specs.Prelude.{◌≡◌};
ghost use Rattle.cert_text.specs.declared.cert_error.CertError.TheVariants.{NoMemory};

use std::alloc::{AllocError, AllocFailed};
use thiserror::Error;

/// Why no certificate was read. A place is that of the token that is refused, counted in bytes from 0, or the text's
/// length where a token is missing.
#[derive(Clone, Copy, Debug, Drop, PartialEq, Eq, Error)]
pub enum CertError {
    /// Another word is wanted there, a token of another form, or none.
    #[error("no certificate at byte {at}")]
    Syntax { at: usize },
    /// A price above its limit.
    #[error("price above its limit at byte {at}")]
    PriceLimit { at: usize },
    /// Another number outside its limits.
    #[error("number outside its limits at byte {at}")]
    NumberLimit { at: usize },
    /// Want of memory.
    #[error("out of memory")]
    NoMemory,
}

impl CertError {
    ghost use Rattle.cert_text.specs.CertFaults.{cert_error_number};

    /// The number of the refusal; none for want of memory.
    pub fn number(self) -> Option<u32>
        ensures { result ≡ cert_error_number self }
    {
        match self {
            CertError::Syntax { .. } => Some(32),
            CertError::PriceLimit { .. } => Some(33),
            CertError::NumberLimit { .. } => Some(34),
            CertError::NoMemory => None,
        }
    }
}

impl From<AllocError> for CertError {
    ghost from_gives = { λ _ e. e ≡ NoMemory };

    fn from(_e: AllocError) -> CertError {
        CertError::NoMemory
    }
}

impl<T: Drop> From<AllocFailed<T>> for CertError {
    ghost from_gives = { λ _ e. e ≡ NoMemory };

    fn from(_e: AllocFailed<T>) -> CertError {
        CertError::NoMemory
    }
}
