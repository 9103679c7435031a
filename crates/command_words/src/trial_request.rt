//! The request for a trial.

/// What `trial SEED` asks for: the seed of the design to be made and routed, and how large it is to be.
#[derive(Clone, Copy, Debug, Drop)]
pub struct TrialRequest {
    pub seed: u64,
    pub cols: u32,
    pub rows: u32,
    pub layers: u32,
    pub nets: u32,
}
