//! Why a text that is read beside a design is refused.

ghost use Rattle.std.specs.Prelude.{◌≡◌, slice_get, slice_index};
ghost use Rattle.command_runs.specs.TextFaults.{text_fault_fields};

use thiserror::Error;

/// Why a route text, a certificate or a text of edits is refused. A place is counted in bytes from 0; where the text ends too
/// early it is the text's length.
#[derive(Clone, Copy, Debug, Drop, PartialEq, Eq, Error)]
pub enum TextFault {
    /// The routes are no list of blocks.
    #[error("no route text at byte {at}")]
    Routes { at: usize },
    /// The certificate has another word there than the one that is wanted, a token of another form, or none.
    #[error("no certificate at byte {at}")]
    Certificate { at: usize },
    /// A price of the certificate is above its limit.
    #[error("price above its limit at byte {at}")]
    Price { at: usize },
    /// Another number of the certificate is outside its limits.
    #[error("number outside its limits at byte {at}")]
    Number { at: usize },
    /// The edits are no text of edits.
    #[error("no edits at byte {at}")]
    Edits { at: usize },
    /// The text has more than 2^30 bytes.
    #[error("more than 2^30 bytes")]
    TooLong,
}

impl TextFault {
    /// The number of the refusal.
    pub fn number(self) -> u32
        ensures { result ≡ slice_index (text_fault_fields self) 0 }
    {
        match self {
            TextFault::Routes { .. } => 31,
            TextFault::Certificate { .. } => 32,
            TextFault::Price { .. } => 33,
            TextFault::Number { .. } => 34,
            TextFault::Edits { .. } => 61,
            TextFault::TooLong => 35,
        }
    }

    /// The place; none where the whole text is refused.
    pub fn place(self) -> Option<usize>
        ensures { result ≡ slice_get (text_fault_fields self) 1 }
    {
        match self {
            TextFault::Routes { at }
            | TextFault::Certificate { at }
            | TextFault::Price { at }
            | TextFault::Number { at }
            | TextFault::Edits { at } => Some(at),
            TextFault::TooLong => None,
        }
    }
}
