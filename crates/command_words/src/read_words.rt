//! The words of a command, read by clap.

ghost use Rattle.std.specs.Prelude.{◌≡◌, ◌≤◌, ◌<◌, ◌^◌, IfErr, IfOk, IfSome, IsSome, Some, drop, length, map, slice_get, string_bytes};
ghost use Rattle.std.specs.Prelude.{true, false};
ghost use Rattle.clap.specs.Words.{found_of, rows_of};
ghost use Rattle.command_words.specs.Apps.{AreReadWords};
ghost use Rattle.command_words.specs.CommandLine.{IsOptionValue, given_options, has_option, has_shape, has_values_in_range};
ghost use Rattle.command_words.specs.CommandLine.{names_in, value_for};
ghost use Rattle.command_words.specs.Kinds.{form_of, option_named, option_of, with_word};
ghost use Rattle.command_words.specs.declared.words_error.WordsError.TheVariants.{Refused};

use crate::clap_command::clap_command;
use crate::kind::Kind;
use crate::option_name::OptionName;
use crate::words_error::WordsError;
use clap::ArgMatches;
use std::alloc::Global;

/// Words behind a form's word, with the form's shape and values in range, and what clap found in the options.
#[derive(Drop)]
pub(crate) struct ReadWords<'a> {
    pub(crate) kind: Kind,
    pub(crate) words: &'a [String],
    matches: ArgMatches<'a>,
    ghost read: { AreReadWords kind (with_word kind (map string_bytes words.now)) (rows_of (found_of matches)) },
}

impl<'a> ReadWords<'a> {
    /// Has clap read the options in words of the form's shape; the last name stands where clap looks for the program's name. The
    /// words are refused where a value is out of its range.
    pub(crate) fn of(
        alloc: Global,
        kind: Kind,
        words: &'a [String],
    ) -> Result<ReadWords<'a>, WordsError>
        requires { has_shape (form_of kind) (with_word kind (map string_bytes words.now)) ≡ true }
        ensures of { IfOk result (λ read. (read.kind ≡ kind) × (read.words.now ≡ words.now)) }
        ensures refused { IfErr result (λ e. e ≡ Refused
            → has_values_in_range (form_of kind) (with_word kind (map string_bytes words.now)) ≡ false) }
    {
        let given = words_from(words, kind.name_count() - 1);
        let matches = clap_command(alloc, kind)?.try_get_matches_from(given)?;
        Ok(ReadWords {
            kind,
            words,
            matches,
        })
    }

    /// The name at this place, from 0.
    pub(crate) fn name(&self, place: usize) -> &'a str
        requires { place < (form_of self.now.kind).names }
        ensures { slice_get (names_in (form_of self.now.kind) (with_word self.now.kind (map string_bytes self.now.words.now))) place
            ≡ Some result.now }
    {
        self.words[place].as_str()
    }

    /// The value of an option of the command.
    pub(crate) fn value(&self, option: OptionName) -> Option<u64>
        requires of_form { has_option (form_of self.now.kind) (option_of option).word ≡ true }
        requires named { option_named self.now.kind (option_of option).word ≡ option }
        ensures value { value_for (option_of option)
            (given_options (form_of self.now.kind) (with_word self.now.kind (map string_bytes self.now.words.now))) ≡ result }
        ensures range { IfSome result (IsOptionValue (option_of option)) }
    {
        self.matches.get_one::<u64>(option.id())
    }

    /// The value of an option that has a default.
    pub(crate) fn number(&self, option: OptionName) -> u64
        requires of_form { has_option (form_of self.now.kind) (option_of option).word ≡ true }
        requires named { option_named self.now.kind (option_of option).word ≡ option }
        requires default { IsSome (option_of option).unless_given }
        ensures value { value_for (option_of option)
            (given_options (form_of self.now.kind) (with_word self.now.kind (map string_bytes self.now.words.now))) ≡ Some result }
        ensures range { IsOptionValue (option_of option) result }
    {
        self.value(option).unwrap()
    }

    /// The same, of an option whose values are small.
    pub(crate) fn small_number(&self, option: OptionName) -> u32
        requires of_form { has_option (form_of self.now.kind) (option_of option).word ≡ true }
        requires named { option_named self.now.kind (option_of option).word ≡ option }
        requires default { IsSome (option_of option).unless_given }
        requires small { (option_of option).most < 2 ^ 32 }
        ensures value { value_for (option_of option)
            (given_options (form_of self.now.kind) (with_word self.now.kind (map string_bytes self.now.words.now))) ≡ Some result }
        ensures range { IsOptionValue (option_of option) result }
    {
        self.number(option) as u32
    }
}

/// The words from this place on.
pub(crate) fn words_from(words: &[String], place: usize) -> &[String]
    requires { place ≤ length words.now }
    ensures { result.now ≡ drop place words.now }
{
    &words[place..]
}
