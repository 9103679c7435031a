//! The answer of a call of a desk that could not be done.

use thiserror::Error;

/// A call of a desk failed. What failed is for the desk alone to know; its callers see that the count of that kind
/// rose.
#[derive(Clone, Copy, Debug, PartialEq, Eq, Error)]
#[error("a call of the desk failed")]
pub struct Failed;
