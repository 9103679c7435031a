//! The files of a runtime, none of which a run replaces by another.

ghost use Rattle.std.specs.Prelude.{◌≤◌, length, IfOk};
ghost use Rattle.gr_desk.specs.KnownFiles.{KeepsKnown};
ghost use Rattle.gr_desk.specs.Made.{KeepsNames, MakesName};

use crate::file_id::FileId;
use crate::file_store::FileStore;
use crate::known_files::KnownFiles;
use crate::placeholders::Placeholders;
use std::fs::OpenFile;
use std::io::ErrorKind;
use std::rt::Files;
use std::{fs, io};

/// The name of what standard output goes to.
const STANDARD_OUTPUT: &str = "/dev/stdout";

/// The files of a runtime, which say nothing of how they came.
///
/// A regular file that was opened or created here, or that standard output goes to, is not created anew, under whatever
/// name: another spelling, a symbolic link or a hard one. And no file here is standard input, output or error, also
/// where these were closed before the run: what is written to such a standard output fails.
#[derive(Drop)]
pub struct RuntimeFiles<'a, R: Files> {
    rt: &'a R,
    known: KnownFiles,
    _placeholders: Placeholders<R::File>,
}

impl<'a, R: Files> RuntimeFiles<'a, R> {
    /// The files of this runtime, of which none was opened or created yet but the one that standard output goes to.
    pub fn new(rt: &'a R) -> Self
        ensures { length result.known ≤ 1 }
    {
        let placeholders = Placeholders::open(rt);
        let mut known = KnownFiles::new();
        if let Some(file) = FileId::of(fs::metadata(rt, STANDARD_OUTPUT)) {
            known.add(file);
        }
        RuntimeFiles {
            rt,
            known,
            _placeholders: placeholders,
        }
    }

    // Whether the file of this name, if there is one, was opened or created here.
    fn knows(&self, name: &str) -> bool {
        match FileId::of(fs::metadata(self.rt, name)) {
            Some(file) => self.known.has(file),
            None => false,
        }
    }

    // Remembers which file this is.
    fn meet(&mut self, file: &R::File)
        ensures { KeepsKnown self.old.known self.new.known }
    {
        if let Some(file) = FileId::of(file.metadata()) {
            self.known.add(file);
        }
    }
}

impl<'a, R: Files> FileStore for RuntimeFiles<'a, R> {
    type File = R::File;

    ghost opened = { λ file name. Unit };

    ghost created = { λ file name. Unit };

    ghost made = { λ store names. Unit };

    fn open(&mut self, name: &str) -> io::Result<R::File>
        ensures file { IfOk result (λ f. Unit) }
        ensures names { KeepsNames (λ store names. Unit) self.old self.new }
        ensures known { KeepsKnown self.old.known self.new.known }
    {
        let file = fs::open(self.rt, name)?;
        self.meet(&file);
        Ok(file)
    }

    // A file that is known fails here, before anything is emptied.
    fn create(&mut self, name: &str) -> io::Result<R::File>
        ensures file { IfOk result (λ f. Unit) }
        ensures names { MakesName (λ store names. Unit) self.old self.new name.now result }
        ensures known { KeepsKnown self.old.known self.new.known }
    {
        if self.knows(name) {
            return Err(io::Error::from(ErrorKind::AlreadyExists));
        }
        let file = fs::create(self.rt, name)?;
        self.meet(&file);
        Ok(file)
    }
}
