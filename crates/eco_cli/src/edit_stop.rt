//! Why edits were not all made.

use crate::refused_edit::RefusedEdit;

/// Why edits were not all made.
#[derive(Clone, Copy, Debug, Drop, PartialEq, Eq)]
pub enum EditStop {
    Refused(RefusedEdit),
    /// Want of memory.
    NoMemory,
}
