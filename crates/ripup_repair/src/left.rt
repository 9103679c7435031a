//! What is left of a run of rounds.

/// By how many workers the next rounds are, the wirelength that is to be kept, how many rounds are left, the overflow of the
/// sets as they stand, and the least overflow so far.
#[derive(Clone, Copy, Drop)]
pub(crate) struct Left {
    pub workers: u32,
    pub budget: Option<u64>,
    pub rounds: u32,
    pub overflow: u64,
    pub least: u64,
}
