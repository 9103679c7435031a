//! Bytes that wait to be written.

ghost use Rattle.std.specs.Prelude.{◌≡◌, ◌+◌, ◌≤◌, ◌++◌, [], length};

use std::marker::Model;

/// How many bytes are held back at most.
pub(crate) const ROOM: usize = 4096;

/// At most `ROOM` bytes, in a fixed array.
#[derive(Drop)]
pub(crate) struct Held {
    bytes: [u8; ROOM],
    used: usize,
}

impl Model for Held {
    ghost use Rattle.std.specs.Prelude.{List, ℕ, ◌≤◌, take};
    ghost use Rattle.gr_desk.specs.declared.held.TheConstants.{ROOM};

    ghost Value = { List ℕ };

    ghost view = { λ h. take h.used h.bytes };

    ghost invariant = { λ h. h.used ≤ ROOM };
}

impl Held {
    /// No bytes.
    pub fn new() -> Self
        ensures { result ≡ [] }
    {
        Held {
            bytes: [0; ROOM],
            used: 0,
        }
    }

    /// The bytes, in the order that they came in.
    pub fn bytes(&self) -> &[u8]
        ensures { result.now ≡ self.now }
    {
        &self.bytes[..self.used]
    }

    /// How many more bytes there is room for.
    pub fn room(&self) -> usize
        ensures { result + length self.now ≡ ROOM }
    {
        ROOM - self.used
    }

    /// Adds bytes behind the others.
    pub fn add(&mut self, bytes: &[u8])
        requires { length self.old + length bytes.now ≤ ROOM }
        ensures { self.new ≡ self.old ++ bytes.now }
    {
        let end = self.used + bytes.len();
        self.bytes[self.used..end].copy_from_slice(bytes);
        self.used = end;
    }

    /// Lets go of the bytes.
    pub fn clear(&mut self)
        ensures { self.new ≡ [] }
    {
        self.used = 0;
    }
}
