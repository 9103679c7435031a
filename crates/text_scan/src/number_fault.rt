//! Why no number was read.

ghost use Rattle.std.specs.Prelude.{◌≡◌};
ghost use Rattle.text_scan.specs.Faults.{fault_place, fault_number};

use thiserror::Error;

/// Why no number was read, each with the place in the text.
#[derive(Clone, Copy, Debug, Drop, PartialEq, Eq, Error)]
pub enum NumberFault {
    /// What stands at `at` is not an optional sign and one or more digits.
    #[error("no number at byte {at}")]
    NotNumber { at: usize },
    /// The number that begins at `at` is outside the range that was asked for.
    #[error("number out of range at byte {at}")]
    OutOfRange { at: usize },
    /// Only blanks were left; `at` is the length of the text.
    #[error("the text ends at byte {at}")]
    End { at: usize },
}

impl NumberFault {
    /// The place in the text.
    pub fn place(self) -> usize
        ensures { result ≡ fault_place self }
    {
        match self {
            NumberFault::NotNumber { at }
            | NumberFault::OutOfRange { at }
            | NumberFault::End { at } => at,
        }
    }

    /// The number of its kind: 1 to 3 in the order above.
    pub fn number(self) -> u32
        ensures { result ≡ fault_number self }
    {
        match self {
            NumberFault::NotNumber { .. } => 1,
            NumberFault::OutOfRange { .. } => 2,
            NumberFault::End { .. } => 3,
        }
    }
}
