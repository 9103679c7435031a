//! Where the files of a desk are opened and created.

ghost use Rattle.std.specs.Prelude.{ℕ, List, IfOk};
ghost use Rattle.gr_desk.specs.Made.{KeepsNames, MakesName};

use std::io;
use std::io::{Read, Write};

/// Opens and creates files by their names.
///
/// That a file is of such a call, and which names were created, is for the store alone to say. So nobody else can have
/// a file for an opened one, or create one that the store doesn't count.
pub trait FileStore {
    type File: Read + Write + Drop;

    /// The file was opened under this name.
    ghost opened: { Self.File → List ℕ → Type 0 };

    /// The file was created under this name.
    ghost created: { Self.File → List ℕ → Type 0 };

    /// These names were created, in order.
    ghost made: { Self → List (List ℕ) → Type 0 };

    /// A file to read from, at its start.
    fn open(&mut self, name: &str) -> io::Result<Self::File>
        ensures file { IfOk result (λ f. opened f name.now) }
        ensures names { KeepsNames made self.old self.new };

    /// An empty file to write to, whatever was there before. One that fails creates none.
    fn create(&mut self, name: &str) -> io::Result<Self::File>
        ensures file { IfOk result (λ f. created f name.now) }
        ensures names { MakesName made self.old self.new name.now result };
}
