//! Gates.

/// What a worker calls before the turn of each net. It may wait there, and no clause says what it does.
pub trait Gate: Sync {
    /// Turns count from 0 within a worker's part of a phase or a round.
    fn pass(&self, worker: u32, turn: u64);
}

/// A gate that is always open: it does nothing.
#[derive(Clone, Copy, Drop)]
pub struct OpenGate;

impl Gate for OpenGate {
    fn pass(&self, _worker: u32, _turn: u64) {}
}
