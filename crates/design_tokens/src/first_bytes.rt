//! The first bytes of a token.

ghost use Rattle.std.specs.Prelude.{List, ℕ, ◌≡◌, ◌==◌, ◌++◌, [], ◌∷◌, length, take};

use std::marker::Model;

/// How many bytes are kept: one more than the longest word has.
pub(crate) const KEPT: usize = 11;

/// At most `KEPT` bytes, in a fixed array.
#[derive(Debug, Drop)]
pub(crate) struct FirstBytes {
    bytes: [u8; KEPT],
    used: usize,
}

impl Model for FirstBytes {
    ghost use Rattle.std.specs.Prelude.{List, ℕ, ◌≤◌, take};
    ghost use Rattle.design_tokens.specs.declared.first_bytes.TheConstants.{KEPT};

    ghost Value = { List ℕ };

    ghost view = { λ f. take f.used f.bytes };

    ghost invariant = { λ f. f.used ≤ KEPT };
}

impl FirstBytes {
    /// No bytes.
    pub(crate) fn new() -> Self
        ensures { result ≡ [] }
    {
        FirstBytes {
            bytes: [0; KEPT],
            used: 0,
        }
    }

    /// The bytes, in the order that they came in.
    pub(crate) fn bytes(&self) -> &[u8]
        ensures { result.now ≡ self.now }
    {
        &self.bytes[..self.used]
    }

    /// Whether there is none.
    pub(crate) fn is_empty(&self) -> bool
        ensures { result ≡ (length self.now == 0) }
    {
        self.used == 0
    }

    /// One more byte, which is kept where there is room.
    pub(crate) fn push(&mut self, byte: u8)
        ensures { self.new ≡ take KEPT (self.old ++ byte ∷ []) }
    {
        if self.used < KEPT {
            self.bytes[self.used] = byte;
            self.used += 1;
        }
    }

    /// More bytes, which are kept as far as there is room.
    pub(crate) fn extend(&mut self, bytes: &[u8])
        ensures { (front : List ℕ) → self.old ≡ take KEPT front → self.new ≡ take KEPT (front ++ bytes.now) }
    {
        let kept = &bytes[..bytes.len().min(KEPT - self.used)];
        for byte in kept {
            self.push(*byte);
        }
    }

    /// Lets go of the bytes.
    pub(crate) fn clear(&mut self)
        ensures { self.new ≡ [] }
    {
        self.used = 0;
    }
}
