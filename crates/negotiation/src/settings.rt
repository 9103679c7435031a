//! Settings.

/// What rerouting is asked for: at most 400 rounds of negotiation, at most 16 passes of descent over all nets, 1 to 8 workers,
/// and the seed of the orders in which nets are rerouted.
#[derive(Debug, Clone, Copy, Drop)]
pub struct RerouteSettings {
    pub rounds: u32,
    pub passes: u32,
    pub workers: u32,
    pub seed: u64,
}
