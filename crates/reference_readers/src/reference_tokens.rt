//! The tokens of a text, by splitting it.

ghost use Rattle.std.specs.Prelude.{◌≡◌, ◌≤◌, ◌<◌, ◌+◌, ◌^◌, IfOk, map, length};
ghost use Rattle.std.specs.List.{slice_split, sum_by};
ghost use Rattle.text_scan.specs.Tokens.{is_blank, tokens_from};
ghost use Rattle.reference_readers.specs.Words.{token_of, words_of};

use crate::word::Word;
use std::alloc::{AllocError, Global};

/// The tokens of the text: what stands between blanks, where that is not nothing. No text of a program is as long as
/// the limit.
pub fn tokens_by_splitting(alloc: Global, text: &[u8]) -> Result<Vec<Word>, AllocError>
    requires { length text.now < 2 ^ 63 }
    ensures { IfOk result (λ words. map token_of words.items ≡ tokens_from 0 text.now) }
{
    let parts = parts_between_blanks(alloc, text)?;
    words_among(alloc, parts.as_slice())
}

/// What stands before the first blank, between each two of them, and behind the last.
fn parts_between_blanks<'a>(alloc: Global, text: &'a [u8]) -> Result<Vec<&'a [u8]>, AllocError>
    ensures { IfOk result (λ parts. map (λ part. part.now) parts.items ≡ slice_split is_blank text.entry.now) }
{
    text.split(|byte| is_blank(*byte)).collect(alloc)
}

/// The parts that are not empty, with their places in a text in which a blank stands between each two of the parts.
fn words_among(alloc: Global, parts: &[&[u8]]) -> Result<Vec<Word>, AllocError>
    requires { sum_by (λ part. length part.now + 1) parts.now ≤ 2 ^ 63 }
    ensures { IfOk result (λ words. map token_of words.items ≡ words_of 0 (map (λ part. part.now) parts.now)) }
{
    let mut words = Vec::new(alloc);
    let mut place = 0;
    for part in parts {
        if !part.is_empty() {
            words.push(Word {
                place,
                bytes: Vec::from_slice(alloc, part)?,
            })?;
        }
        place += part.len() + 1;
    }
    Ok(words)
}

/// Whether the byte is a space, a tab, a CR or an LF.
pub fn is_blank(byte: u8) -> bool
    ensures { result ≡ is_blank byte }
{
    matches!(byte, b' ' | b'\t' | b'\r' | b'\n')
}
