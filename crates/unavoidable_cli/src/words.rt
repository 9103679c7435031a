//! The words of the program.

ghost use Rattle.std.specs.Prelude.{◌≡◌, ◌&&◌, false, map, true, string_bytes, MatchOption};
ghost use Rattle.std.specs.List.{list_all, list_any};
ghost use Rattle.std.specs.Str.{bytes_eq};
ghost use Rattle.command_words.specs.CommandLine as command_line;
ghost use Rattle.unavoidable_cli.specs.Words.{are_names, unavoidable_task_of, unavoidable_task_of_words};

use crate::names::Names;

/// Whether a word is the name of a file: it is not empty and doesn't begin with `-`.
fn is_file_name(word: &str) -> bool
    ensures { result ≡ command_line.is_file_name word.now }
{
    match word.as_bytes() {
        [] => false,
        [first, ..] => *first != b'-',
    }
}

fn is_among(name: &str, words: &[String]) -> bool
    ensures { result ≡ list_any (bytes_eq name.now) (map string_bytes words.now) }
{
    for word in words {
        if name == word.as_str() {
            return true;
        }
    }
    false
}

/// Whether the words are names of files, and no two of them equal.
fn are_differing_names(words: &[String]) -> bool
    ensures { result ≡ (list_all command_line.is_file_name (map string_bytes words.now) && command_line.all_differ (map string_bytes words.now)) }
{
    let mut left = words;
    while let [name, others @ ..] = left {
        if !is_file_name(name.as_str()) || is_among(name.as_str(), others) {
            return false;
        }
        left = others;
    }
    true
}

/// The files that the words name; `None` where they are no command. A command is three or four names of files, no two of them
/// equal.
pub(crate) fn names_of(words: &[String]) -> Option<Names<'_>>
    ensures { MatchOption result (are_names (map string_bytes words.now) ≡ false)
        (λ names. (are_names (map string_bytes words.now) ≡ true) × (unavoidable_task_of names ≡ unavoidable_task_of_words (map string_bytes words.now))) }
{
    if !are_differing_names(words) {
        return None;
    }
    if words.len() == 3 {
        return Some(Names {
            input: words[0].as_str(),
            routes: words[1].as_str(),
            certificate: None,
            new_certificate: words[2].as_str(),
        });
    }
    if words.len() == 4 {
        return Some(Names {
            input: words[0].as_str(),
            routes: words[1].as_str(),
            certificate: Some(words[2].as_str()),
            new_certificate: words[3].as_str(),
        });
    }
    None
}
