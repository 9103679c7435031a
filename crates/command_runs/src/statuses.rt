//! The statuses of runs that are not refused.

/// The status of a run whose files and report were written whole.
pub(crate) const DONE: u8 = 0;

/// The status of a run that reported a reason against what it judged.
pub(crate) const OBJECTED: u8 = 1;

/// The status of a run whose files or report could not be written whole.
pub(crate) const UNWRITTEN: u8 = 7;
