//! What the judge says of routes and a certificate.

use crate::reason::Reason;
use tree_set::Measure;

/// What the judge says of routes and a certificate.
#[derive(Debug, Drop, Clone, Copy, PartialEq, Eq)]
pub enum Verdict {
    /// They meet the design. The measure is that with the certificate's budget, and `beyond` counts the nets that use a choked
    /// edge outside their ground.
    Yes { measure: Measure, beyond: u32 },
    /// They don't, for this reason.
    No(Reason),
}
