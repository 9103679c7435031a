//! Which file of the system one is, whatever it is called.

ghost use Rattle.std.specs.Prelude.{IsSome, IsOkAnd};
ghost use Rattle.std.specs.Fs.{file_type, IsFile};

use std::fs::Metadata;
use std::io;
use std::os::unix::fs::MetadataExt;

/// A regular file, by its device and its number there.
#[derive(Clone, Copy, PartialEq, Eq)]
pub(crate) struct FileId {
    device: u64,
    number: u64,
}

impl FileId {
    /// The file that this was found about. None where nothing was found or no number is told, and none of what is no
    /// regular file: a device or a pipe may be used twice.
    pub fn of(found: io::Result<Metadata>) -> Option<FileId>
        ensures { IsSome result → IsOkAnd found (λ about. IsFile (file_type about)) }
    {
        match found {
            Ok(about) if about.is_file() && about.ino() != 0 => Some(FileId {
                device: about.dev(),
                number: about.ino(),
            }),
            _ => None,
        }
    }

    /// One that stands for no file.
    pub fn nowhere() -> FileId {
        FileId {
            device: 0,
            number: 0,
        }
    }
}
