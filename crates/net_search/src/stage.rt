//! The stages of rerouting.

/// How loads weigh on edges.
#[derive(Debug, Drop, Clone, Copy, PartialEq, Eq)]
pub enum Stage {
    /// Nets without a set get one: overflow weighs little.
    Start,
    /// Nets push one another away: prices weigh, and overflow weighs little.
    Negotiation,
    /// Sets are made shorter: overflow weighs more than any way round.
    Descent,
}
