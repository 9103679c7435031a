//! The command of the words.

ghost use Rattle.std.specs.Prelude.{◌≡◌, IfOk, IfErr, map, string_bytes, false, true};
ghost use Rattle.command_words.specs.CommandLine.{AsksFor, HasRanges, has_shape, is_command, is_command_of};
ghost use Rattle.command_words.specs.Kinds.{form_of, with_word};
ghost use Rattle.command_words.specs.declared.words_error.WordsError.TheVariants.{Refused};

use crate::command::Command;
use crate::kind::Kind;
use crate::read_words::{ReadWords, words_from};
use crate::requests::command_in;
use crate::shape::verb_of;
use crate::verb::Verb;
use crate::words_error::WordsError;
use std::alloc::Global;

/// The command that the words are: the arguments of the program, without the program's name.
pub fn command_of<'a>(alloc: Global, words: &'a [String]) -> Result<Command<'a>, WordsError>
    ensures asked { IfOk result (AsksFor (map string_bytes words.now)) }
    ensures ranges { IfOk result HasRanges }
    ensures refused { IfErr result (λ e. e ≡ Refused → is_command (map string_bytes words.now) ≡ false) }
{
    match verb_of(words) {
        None => Err(WordsError::Refused),
        Some(verb) => command_of_verb(alloc, verb, words_from(words, 1)),
    }
}

/// What the words behind the command's word ask for, where they have its shape and their values are in range.
fn command_of_verb<'a>(
    alloc: Global,
    verb: Verb,
    words: &'a [String],
) -> Result<Command<'a>, WordsError>
    requires { has_shape (form_of (Kind.Grouter verb)) (with_word (Kind.Grouter verb) (map string_bytes words.now)) ≡ true }
    ensures asked { IfOk result (AsksFor (with_word (Kind.Grouter verb) (map string_bytes words.now))) }
    ensures ranges { IfOk result HasRanges }
    ensures refused { IfErr result (λ e. e ≡ Refused
        → is_command_of (with_word (Kind.Grouter verb) (map string_bytes words.now)) (form_of (Kind.Grouter verb)) ≡ false) }
{
    let read = ReadWords::of(alloc, Kind::Grouter(verb), words)?;
    Ok(command_in(verb, &read))
}
