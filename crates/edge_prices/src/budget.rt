//! A budget of the wirelength.

/// A wirelength that is to be kept, and the price of each of its pieces. A call that takes one asks that both be within the
/// limits of `specs/Limits.antt`.
#[derive(Debug, Drop, Clone, Copy, PartialEq, Eq)]
pub struct Budget {
    /// The greatest wirelength that keeps it, from 1 to 2^42.
    pub most: u64,
    /// The price of each piece, at most 32,768.
    pub price: u32,
}
