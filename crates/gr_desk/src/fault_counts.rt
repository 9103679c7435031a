//! The two counts of a desk that rise where a call fails.

ghost use Rattle.std.specs.Prelude.{◌≡◌, ◌≤◌};
ghost use Rattle.gr_desk.specs.Causes.{Rose};

use crate::failed::Failed;

/// A count that rises where an open or a read fails, and one where a create or a write does. Each stands still at its
/// last value, so neither is a number of calls.
#[derive(Drop)]
pub(crate) struct FaultCounts {
    in_faults: u64,
    out_faults: u64,
}

impl FaultCounts {
    /// No fault yet.
    pub fn none() -> FaultCounts
        ensures in_faults { result.in_faults ≡ 0 }
        ensures out_faults { result.out_faults ≡ 0 }
    {
        FaultCounts {
            in_faults: 0,
            out_faults: 0,
        }
    }

    /// Raises the count of opens and reads.
    pub fn count_in(&mut self) -> Failed
        ensures later { self.old.in_faults ≤ self.new.in_faults }
        ensures rose { Rose self.old.in_faults self.new.in_faults }
        ensures other { self.new.out_faults ≡ self.old.out_faults }
    {
        self.in_faults = self.in_faults.saturating_add(1);
        Failed
    }

    /// Raises the count of creates and writes.
    pub fn count_out(&mut self) -> Failed
        ensures later { self.old.out_faults ≤ self.new.out_faults }
        ensures rose { Rose self.old.out_faults self.new.out_faults }
        ensures other { self.new.in_faults ≡ self.old.in_faults }
    {
        self.out_faults = self.out_faults.saturating_add(1);
        Failed
    }
}
