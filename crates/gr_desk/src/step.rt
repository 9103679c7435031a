//! How many bytes one call moves.

ghost use Rattle.std.specs.Prelude.{◌≡◌, ◌<◌, min};

use std::marker::Model;

/// How many bytes a read or a write of a desk in memory moves at most: 1 or more.
#[derive(Drop)]
pub(crate) struct Step {
    bytes: usize,
}

impl Model for Step {
    ghost use Rattle.std.specs.Prelude.{ℕ, ◌<◌};

    ghost Value = { ℕ };

    ghost view = { λ s. s.bytes };

    ghost invariant = { λ s. 0 < s.bytes };
}

impl Step {
    /// At most so many bytes.
    pub fn new(bytes: usize) -> Step
        requires { 0 < bytes }
        ensures { result ≡ bytes }
    {
        Step { bytes }
    }

    /// How many of so many bytes are moved.
    pub fn of(&self, bytes: usize) -> usize
        ensures least { result ≡ min self.now bytes }
        ensures some { 0 < bytes → 0 < result }
    {
        self.bytes.min(bytes)
    }
}
