//! The files that a run has opened or made.

ghost use Rattle.std.specs.Prelude.{◌≡◌, ◌<◌, ◌≤◌, ◌++◌, ◌∷◌, ◌↔◌, [], length, IsTrue};
ghost use Rattle.std.specs.List.{Contains};
ghost use Rattle.gr_desk.specs.KnownFiles.{KeepsKnown, MOST};

use crate::file_id::FileId;
use std::marker::Model;

/// How many files are known at most: one for each port.
const MOST_FILES: usize = 10;

/// At most ten files, in a fixed array.
#[derive(Drop)]
pub(crate) struct KnownFiles {
    files: [FileId; MOST_FILES],
    count: usize,
}

impl Model for KnownFiles {
    ghost use Rattle.std.specs.Prelude.{List, ◌≤◌, take};
    ghost use Rattle.gr_desk.specs.declared.file_id.FileId.{FileId};
    ghost use Rattle.gr_desk.specs.declared.known_files.TheConstants.{MOST_FILES};

    ghost Value = { List FileId };

    ghost view = { λ k. take k.count k.files };

    ghost invariant = { λ k. k.count ≤ MOST_FILES };
}

impl KnownFiles {
    /// No files.
    pub fn new() -> Self
        ensures { result ≡ [] }
    {
        KnownFiles {
            files: [FileId::nowhere(); MOST_FILES],
            count: 0,
        }
    }

    /// Whether this file is known.
    pub fn has(&self, file: FileId) -> bool
        ensures { IsTrue result ↔ Contains self.now file }
    {
        self.files[..self.count].contains(&file)
    }

    /// Knows this file too, if there is room.
    pub fn add(&mut self, file: FileId)
        ensures kept { KeepsKnown self.old self.new }
        ensures added { length self.old < MOST → self.new ≡ self.old ++ (file ∷ []) }
    {
        if self.count < MOST_FILES {
            self.files[self.count] = file;
            self.count += 1;
        }
    }
}
