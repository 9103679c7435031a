//! The words among a program's arguments.

ghost use Rattle.std.specs.Prelude.{◌≡◌, ◌≢◌, [], drop, IsErr, IsOkAnd, IfOk, IfErr};
ghost use Rattle.std.specs.IoError.{error_kind};
ghost use Rattle.std.specs.Vec.Iter.{into_iter_items};

use std::alloc::{AllocError, Global};
use std::env::Args;
use std::io;
use std::io::ErrorKind;

/// The words among the arguments: all but the first, which is the program's name. Arguments that aren't text are no words, so
/// that they are no command.
pub fn words_of(alloc: Global, args: io::Result<Args>) -> Result<Vec<String>, AllocError>
    ensures all { IfOk args (λ given. IfOk result (λ words. words.items ≡ drop 1 (into_iter_items given))) }
    ensures no_memory { IfErr args (λ error. error_kind error ≡ ErrorKind.OutOfMemory → IsErr result) }
    ensures no_text { IfErr args (λ error. error_kind error ≢ ErrorKind.OutOfMemory → IsOkAnd result (λ words. words.items ≡ [])) }
{
    match args {
        Ok(args) => args.skip(1).collect(alloc),
        Err(error) if error.kind() == ErrorKind::OutOfMemory => Err(AllocError),
        Err(_) => Ok(Vec::new(alloc)),
    }
}
