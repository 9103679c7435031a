//! A via.

/// A via by its number: via v goes from vertex v to the next layer.
#[derive(Debug, Clone, Copy, PartialEq, Eq, PartialOrd, Ord)]
pub struct Via(pub u32);
