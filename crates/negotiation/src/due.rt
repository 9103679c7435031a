//! Which nets are to be rerouted.

/// Which nets of an order are to be rerouted.
#[derive(Debug, Clone, Copy, Drop, PartialEq, Eq)]
pub(crate) enum Due {
    /// Those that hold an overfull edge.
    Overfull,
    /// These, and those with more pieces than they need at least.
    Improvable,
}
