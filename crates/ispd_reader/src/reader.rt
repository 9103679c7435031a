//! The reader of a design that is fed in pieces.

use crate::progress::Progress;
use design_tokens::{InputError, InputFault};
use grid_base::NoMemory;
use grid_graph::Design;
use std::alloc::Global;

/// The most bytes of a text.
pub const MAX_BYTES: usize = 1 << 30;

/// A reader of a design text that comes in pieces. Of the text it keeps only the token that a piece
/// ends in. Once it has answered an error it answers that again, but `TooLong` from where a refused
/// text turns out to be too long.
#[derive(Drop)]
pub struct Reader {
    progress: Progress,
    fed: usize,
    answered: Option<InputError>,
}

impl Reader {
    ghost use Rattle.std.specs.Prelude.{◌≡◌, ◌≢◌, ◌<◌, ◌↔◌, ◌⊎◌, ◌+◌, ◌-◌, ◌^◌, min, List, ℕ, [], ◌++◌, length, Some, None, IfOk, IfErr, IfSome};
    ghost use Rattle.std.specs.Result.{result_err};
    ghost use Rattle.design_tokens.specs.declared.input_fault.InputFault.{InputFault};
    ghost use Rattle.design_tokens.specs.declared.input_fault.InputFault.TheVariants.{TooLong};
    ghost use Rattle.design_tokens.specs.declared.input_error.InputError.{InputError};
    ghost use Rattle.design_tokens.specs.declared.input_error.InputError.TheVariants as errors;
    ghost use Rattle.ispd_reader.specs.Designs.{contents_of, IsDesignOfText};
    ghost use Rattle.ispd_reader.specs.Limits.{max_bytes};
    ghost use Rattle.design_tokens.specs.Parsing.{Refuses, refusal_in};
    ghost use Rattle.ispd_reader.specs.Readers.{HasRead, IsAnswered, RefusesAll, EndsInBlank, answered};

    /// A reader that was fed nothing.
    pub fn new(alloc: Global) -> Result<Reader, NoMemory>
        ensures read { IfOk result (λ reader. HasRead reader []) }
        ensures answered { IfOk result (λ reader. answered reader ≡ None) }
    {
        Ok(Reader {
            progress: Progress::new(alloc),
            fed: 0,
            answered: None,
        })
    }

    /// Feeds it the bytes that come next. `Input` says what is wrong with every text that begins with
    /// the bytes so far and is not too long.
    pub fn feed(&mut self, piece: &[u8]) -> Result<(), InputError>
        ensures read { (text : List ℕ) → HasRead self.old text → HasRead self.new (text ++ piece.now) }
        ensures answered { answered self.new ≡ result_err result }
        ensures refused { (text : List ℕ) → HasRead self.old text → IfErr result (λ e. IfSome (refusal_in e) (RefusesAll (text ++ piece.now))) }
        ensures too_long { (text : List ℕ) → HasRead self.old text → result ≢ Err errors.NoMemory → (result ≡ Err (errors.Input TooLong)) ↔ (max_bytes < length (text ++ piece.now)) }
        ensures settled { (text : List ℕ) (fault : InputFault) → HasRead self.old text → length (text ++ piece.now) < max_bytes → EndsInBlank (text ++ piece.now) → RefusesAll (text ++ piece.now) fault → (result ≡ Err errors.NoMemory) ⊎ (result ≡ Err (errors.Input fault)) }
        ensures again { (fault : InputFault) → answered self.old ≡ Some (errors.Input fault) → (result ≡ Err (errors.Input fault)) ⊎ (result ≡ Err (errors.Input TooLong)) }
        ensures memory { answered self.old ≡ Some errors.NoMemory → result ≡ Err errors.NoMemory }
    {
        let start = self.fed;
        self.fed = start.saturating_add(piece.len());
        let answer = self.read(start, piece);
        self.answered = answer.err();
        answer
    }

    /// The design of all bytes that it was fed.
    pub fn end(self) -> Result<Design, InputError>
        ensures design { (text : List ℕ) → HasRead self text → IfOk result (λ d. IsDesignOfText text d) }
        ensures refusal { (text : List ℕ) → HasRead self text → IfErr result (λ e. Refuses refusal_in e (contents_of text)) }
        ensures again { (e : InputError) → answered self ≡ Some e → result ≡ Err e }
    {
        match self.answered {
            Some(answer) => Err(answer),
            None => self.progress.end(self.fed),
        }
    }

    /// Reads the bytes that come next, of which the first has this place.
    fn read(&mut self, start: usize, piece: &[u8]) -> Result<(), InputError>
        requires { self.old.fed ≡ min (start + length piece.now) (2 ^ 64 - 1) }
        ensures so_far { (text : List ℕ) → (start ≡ min (length text) (2 ^ 64 - 1)) → IsAnswered self.old.answered self.old.progress text → IsAnswered (result_err result) self.new.progress (text ++ piece.now) }
        ensures fed { self.new.fed ≡ self.old.fed }
        ensures again { (fault : InputFault) → answered self.old ≡ Some (errors.Input fault) → (result ≡ Err (errors.Input fault)) ⊎ (result ≡ Err (errors.Input TooLong)) }
        ensures memory { answered self.old ≡ Some errors.NoMemory → result ≡ Err errors.NoMemory }
    {
        match self.answered {
            Some(InputError::NoMemory) => Err(InputError::NoMemory),
            _ if self.fed > MAX_BYTES => Err(InputError::Input(InputFault::TooLong)),
            Some(InputError::Input(fault)) => Err(InputError::Input(fault)),
            None => self.progress.read(start, piece),
        }
    }
}
