//! Where words and numbers of a text end, and the number that a word is.

ghost use Rattle.std.specs.Prelude.{◌≡◌, ◌<◌, ◌≤◌, ◌+◌, drop, length, true, Some, SomeIff, FitsSigned};
ghost use Rattle.std.specs.Char.{is_ascii_digit};
ghost use Rattle.std.specs.Int.{w64};
ghost use Rattle.std.specs.List.{prefix_len, position_or_len};
ghost use Rattle.text_scan.specs.Numbers.{sign_len, unsigned, is_number, value_of};
ghost use Rattle.text_scan.specs.Tokens.{is_blank};
ghost use Rattle.route_text.specs.Blocks.{begins_number};
ghost use Rattle.reference_readers.specs.ReferenceNumbers.{word_as_number};

use crate::reference_tokens::is_blank;
use std::str;

/// Whether a number may begin with the byte.
pub fn begins_number(byte: u8) -> bool
    ensures { result ≡ begins_number (Some byte) }
{
    byte.is_ascii_digit() || byte == b'+' || byte == b'-'
}

/// The place of the first blank from `start` on, or the length.
pub fn word_end(text: &[u8], start: usize) -> usize
    requires { start ≤ length text.now }
    ensures end { result ≡ start + position_or_len is_blank (drop start text.now) }
    ensures within { result ≤ length text.now }
{
    for i in start..text.len() {
        if is_blank(text[i]) {
            return i;
        }
    }
    text.len()
}

/// The place of the first byte from `start` on that is no digit, or the length.
fn digits_end(text: &[u8], start: usize) -> usize
    requires { start ≤ length text.now }
    ensures end { result ≡ start + prefix_len is_ascii_digit (drop start text.now) }
    ensures within { result ≤ length text.now }
{
    for i in start..text.len() {
        if !text[i].is_ascii_digit() {
            return i;
        }
    }
    text.len()
}

/// Where a sign, if one stands at `start`, and digits end.
pub fn number_end(text: &[u8], start: usize) -> usize
    requires { start < length text.now }
    ensures end { result
        ≡ start + (sign_len (drop start text.now) + prefix_len is_ascii_digit (unsigned (drop start text.now))) }
    ensures within { result ≤ length text.now }
{
    match text[start] {
        b'+' | b'-' => digits_end(text, start + 1),
        _ => digits_end(text, start),
    }
}

/// The number that the word is, where it is one from `low` to `high`.
pub fn number_within(word: &[u8], low: i64, high: i64) -> Option<i64>
    ensures { result ≡ word_as_number low high word.now }
{
    match number_of(word) {
        Some(number) if low <= number && number <= high => Some(number),
        _ => None,
    }
}

/// The number that the word is, where it is one and 64 bits hold it.
fn number_of(word: &[u8]) -> Option<i64>
    ensures { SomeIff result ((is_number word.now ≡ true) × FitsSigned w64 (value_of word.now)) (value_of word.now) }
{
    let Ok(text) = str::from_utf8(word) else {
        return None;
    };
    match text.parse::<i64>() {
        Ok(number) => Some(number),
        Err(_) => None,
    }
}
