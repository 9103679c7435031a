//! The shape of the words of a command: its word, its names, and options with their values.

ghost use Rattle.std.specs.Prelude.{◌≡◌, ◌&&◌, map, take, drop, false, true, MatchOption, string_bytes};
ghost use Rattle.std.specs.List.{list_all, list_any};
ghost use Rattle.std.specs.Str.{bytes_eq};
ghost use Rattle.command_words.specs.CommandLine.{all_differ, are_names, are_options, has_shape, in_pairs, is_command};
ghost use Rattle.command_words.specs.Kinds.{form_of, name_test, verb_form};

use crate::kind::Kind;
use crate::name_form::NameForm;
use crate::verb::Verb;
use crate::word::is_value_word;

/// The command whose shape the words have. Words with no such shape are no command.
pub(crate) fn verb_of(words: &[String]) -> Option<Verb>
    ensures { MatchOption result (is_command (map string_bytes words.now) ≡ false)
        (λ verb. has_shape (verb_form verb) (map string_bytes words.now) ≡ true) }
{
    let (first, rest) = words.split_first()?;
    let verb = Verb::of(first.as_str())?;
    if has_parts(Kind::Grouter(verb), rest) {
        Some(verb)
    } else {
        None
    }
}

/// Whether the words are names and options of this form.
pub(crate) fn has_parts(kind: Kind, words: &[String]) -> bool
    ensures { result ≡ (are_names (form_of kind) (take (form_of kind).names (map string_bytes words.now))
        && are_options (form_of kind) (drop (form_of kind).names (map string_bytes words.now))) }
{
    let names = kind.name_count();
    if words.len() < names {
        return false;
    }
    are_differing_names(kind.name_form(), &words[..names]) && are_options(kind, &words[names..])
}

/// Whether the words are names of this form, and no two of them equal.
pub(crate) fn are_differing_names(form: NameForm, words: &[String]) -> bool
    ensures { result ≡ (list_all (name_test form) (map string_bytes words.now)
        && all_differ (map string_bytes words.now)) }
{
    let mut left = words;
    while let [name, others @ ..] = left {
        if !form.is_name(name.as_str()) || is_among(name.as_str(), others) {
            return false;
        }
        left = others;
    }
    true
}

pub(crate) fn is_among(name: &str, words: &[String]) -> bool
    ensures { result ≡ list_any (bytes_eq name.now) (map string_bytes words.now) }
{
    for word in words {
        if name == word.as_str() {
            return true;
        }
    }
    false
}

/// Whether the words are options of the command with their values, each option at most once.
#[tactic(auto, using(crate::proofs::Shapes::options_step))]
fn are_options(kind: Kind, words: &[String]) -> bool
    ensures { result ≡ are_options (form_of kind) (map string_bytes words.now) }
{
    let mut left = words;
    while let [option, value, others @ ..] = left {
        if !kind.has_option(option.as_str()) || !is_value_word(value.as_str()) {
            return false;
        }
        if is_given(option.as_str(), others) {
            return false;
        }
        left = others;
    }
    left.is_empty()
}

/// Whether the options and values begin a pair with this option.
fn is_given(option: &str, words: &[String]) -> bool
    ensures { result ≡ list_any (bytes_eq option.now) (map (λ given. given.0) (in_pairs (map string_bytes words.now))) }
{
    let mut left = words;
    while let [other, _, others @ ..] = left {
        if option == other.as_str() {
            return true;
        }
        left = others;
    }
    false
}
