//! What a paragraph tells of a run.

ghost use Rattle.std.specs.Prelude.{◌≤◌};

use crate::calls::failing_of;
use gr_desk::{Fail as FailedCall, MemDesk, Port};
use std::alloc::{AllocError, Global};
use std::test::Fail;
use test_rows::text_of;
use worked_designs::design_text;

/// The names of the files with the design, the routes, the certificate and the edits.
const FILES: [&str; 4] = ["a.gr", "a.routes", "a.cert", "a.edits"];

/// What a paragraph tells of a run.
#[derive(Drop)]
pub struct Told {
    /// The line with the words.
    pub line: &'static str,
    /// The calls that fail.
    pub failing: Vec<FailedCall>,
    /// The texts of the design, the routes, the certificate and the edits, where there are files.
    pub texts: Vec<Vec<u8>>,
    /// The status and the texts that are left.
    pub wanted: &'static str,
}

/// The words of a line, which one blank separates: between two blanks is an empty word, and `-` is none.
pub fn words_of(alloc: Global, line: &str) -> Result<Vec<String>, AllocError> {
    let mut words = Vec::new(alloc);
    if line != "-" {
        for word in line.split(' ') {
            words.push(String::from_str(alloc, word)?)?;
        }
    }
    Ok(words)
}

/// What stands before the first bar of a line, and behind it, which may be nothing.
fn halves(line: &'static str) -> (&'static str, &'static str) {
    line.split_once('|').unwrap_or((line, ""))
}

/// The texts of the files of a line.
fn texts_of(alloc: Global, line: &'static str) -> Result<Vec<Vec<u8>>, Fail> {
    let mut texts = Vec::new(alloc);
    if line == "-" {
        return Ok(texts);
    }
    let (design, rest) = halves(line);
    let (routes, rest) = halves(rest);
    let (cert, edits) = halves(rest);
    texts.push(design_text(alloc, design)?)?;
    for text in [routes, cert, edits] {
        let text = text_of(alloc, text)?;
        texts.push(Vec::from_slice(alloc, text.as_bytes())?)?;
    }
    Ok(texts)
}

/// A paragraph without the comment in front of it, which is a line that begins with `#`.
fn past_comment(paragraph: &'static str) -> &'static str {
    match paragraph.split_once('\n') {
        Some((line, rest)) if line.starts_with('#') => rest,
        _ => paragraph,
    }
}

/// What a paragraph tells.
pub fn told_of(alloc: Global, paragraph: &'static str) -> Result<Told, Fail> {
    let (first, rest) = past_comment(paragraph).split_once('\n').ok_or("the texts")?;
    let (second, wanted) = rest.split_once('\n').ok_or("the status")?;
    let (line, fails) = halves(first);
    let failing = failing_of(alloc, fails)?;
    let texts = texts_of(alloc, second)?;
    Ok(Told {
        line,
        failing,
        texts,
        wanted,
    })
}

/// A desk that has the texts under the names of the files, and expects these names at their ports.
pub fn desk_of(
    alloc: Global,
    texts: Vec<Vec<u8>>,
    failing: Vec<FailedCall>,
    names: &[(Port, &str)],
) -> Result<MemDesk, AllocError> {
    desk_by_steps(alloc, texts, failing, names, usize::MAX)
}

/// The same desk, whose reads and writes each move at most `step` bytes.
pub fn desk_by_steps(
    alloc: Global,
    texts: Vec<Vec<u8>>,
    failing: Vec<FailedCall>,
    names: &[(Port, &str)],
    step: usize,
) -> Result<MemDesk, AllocError>
    requires { 1 ≤ step }
{
    let mut files = Vec::new(alloc);
    for (name, text) in FILES.iter().zip(texts) {
        files.push((String::from_str(alloc, name)?, text))?;
    }
    let mut expected = Vec::new(alloc);
    for (port, name) in names {
        expected.push((*port, String::from_str(alloc, name)?))?;
    }
    Ok(MemDesk::expecting_by_steps(alloc, files, failing, expected, step))
}
