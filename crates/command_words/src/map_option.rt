//! The options of `congestion_map` with their values.

ghost use Rattle.std.specs.Prelude.{◌≡◌, ◌<◌, [], ◌∷◌, MatchOption, is_some, length, map, option_map, string_bytes};
ghost use Rattle.command_words.specs.MapLine.{are_map_options, given_for, is_flag, is_map_option, map_options};

use crate::word::{is_file_name, layer_of};

/// The word of an option, and its value, which is empty for a flag.
#[derive(Clone, Copy, Drop)]
pub(crate) struct MapOption<'a> {
    pub(crate) word: &'a str,
    pub(crate) value: &'a str,
}

impl<'a> MapOption<'a> {
    /// Whether this is an option of the program, with a value that it may have.
    fn is_known(self) -> bool
        ensures { result ≡ is_map_option (self.entry.word.now, self.entry.value.now) }
    {
        is_flag(self.word)
            || self.word == "--cut" && is_file_name(self.value)
            || self.word == "--layer" && layer_of(self.value).is_some()
    }
}

fn is_flag(word: &str) -> bool
    ensures { result ≡ is_flag word.now }
{
    word == "--layers" || word == "--greater"
}

/// The first option and the words behind it.
#[tactic(auto, using(crate::proofs::MapOptions::after_flag, crate::proofs::MapOptions::after_value))]
fn next_option<'a>(words: &'a [String]) -> Option<(MapOption<'a>, &'a [String])>
    ensures { MatchOption result (words.now ≡ [])
        (λ next. (map_options (map string_bytes words.now) ≡ (next.0.word.now, next.0.value.now) ∷ map_options (map string_bytes next.1.now))
        × (length next.1.now < length words.now)) }
{
    let (word, rest) = words.split_first()?;
    let word = word.as_str();
    if is_flag(word) {
        return Some((MapOption { word, value: "" }, rest));
    }
    match rest.split_first() {
        None => Some((MapOption { word, value: "" }, rest)),
        Some((value, others)) => Some((
            MapOption {
                word,
                value: value.as_str(),
            },
            others,
        )),
    }
}

/// The value of an option, where it is given.
pub(crate) fn value_of<'a>(option: &str, words: &'a [String]) -> Option<&'a str>
    ensures { given_for option.now (map_options (map string_bytes words.now)) ≡ option_map (λ value. value.now) result }
{
    let mut left = words;
    while let Some((given, others)) = next_option(left) {
        if option == given.word {
            return Some(given.value);
        }
        left = others;
    }
    None
}

/// Whether an option is given.
fn is_given(option: &str, words: &[String]) -> bool
    ensures { result ≡ is_some (given_for option.now (map_options (map string_bytes words.now))) }
{
    value_of(option, words).is_some()
}

/// Whether the words are options of the program, each at most once.
#[tactic(auto, using(crate::proofs::MapOptions::unknown))]
pub(crate) fn are_map_options(words: &[String]) -> bool
    ensures { result ≡ are_map_options (map_options (map string_bytes words.now)) }
{
    let mut left = words;
    while let Some((given, others)) = next_option(left) {
        if !given.is_known() {
            return false;
        }
        if is_given(given.word, others) {
            return false;
        }
        left = others;
    }
    true
}
