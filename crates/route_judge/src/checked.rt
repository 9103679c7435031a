//! What the judge says of routes.

use crate::reason::Reason;
use tree_set::Measure;

/// What the judge says of routes.
#[derive(Debug, Drop, Clone, Copy, PartialEq, Eq)]
pub enum Checked {
    /// They are routes of the design. `beyond` counts the nets that use a choked edge outside their ground.
    Yes { measure: Measure, beyond: u32 },
    /// They are not, for this reason.
    No(Reason),
}
