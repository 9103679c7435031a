//! What is wrong with a table of a test.

use std::alloc::{AllocError, AllocFailed};

/// Why a table, a row or a field is refused, with the text that it is refused for.
#[derive(Debug, Drop, Clone, Copy, PartialEq, Eq)]
pub enum RowFault {
    /// A table has no rows.
    NoRows,
    /// A line of a table is empty.
    EmptyLine,
    /// A row has more fields or fewer.
    OtherFields(&'static str),
    /// No number of its kind stands there.
    NoNumber(&'static str),
    /// There are more numbers or fewer.
    OtherNumbers(&'static str),
    /// No edge and no via stands there.
    NoPiece(&'static str),
    /// The last of some sets of pieces has no end.
    NoEnd(&'static str),
    /// There was not enough memory.
    NoMemory,
}

impl From<AllocError> for RowFault {
    fn from(_: AllocError) -> Self {
        RowFault::NoMemory
    }
}

impl<T: Drop> From<AllocFailed<T>> for RowFault {
    fn from(_: AllocFailed<T>) -> Self {
        RowFault::NoMemory
    }
}
