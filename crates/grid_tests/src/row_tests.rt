//! Tables, rows and fields of `test_rows` that are refused.

use std::alloc::Global;
use std::io::Eprint;
use std::process::{ExitCode, Termination};
use std::test::Fail;
use test_rows::{
    Answers, check_rows, five_fields, four_fields, number_of, numbers_of, paragraphs_of, piece_of,
    rows_of, set_of, sets_of, size_of, three_fields, three_numbers, two_fields, two_numbers,
    vertices_of,
};

/// How many rows a table has, or none where it is refused.
fn row_count(alloc: Global, table: &'static str) -> Option<usize> {
    Some(rows_of(alloc, table).ok()?.len())
}

/// How many paragraphs it has, or none where it is refused.
fn paragraph_count(alloc: Global, table: &'static str) -> Option<usize> {
    Some(paragraphs_of(alloc, table).ok()?.len())
}

/// Of the refused ones two have no line but a comment or none at all, and the others have an empty line.
#[test]
fn a_table_without_rows_is_refused(rt: HostRuntime) {
    let alloc = rt.alloc();
    let refused = (
        row_count(alloc, ""),
        row_count(alloc, "# none"),
        row_count(alloc, "a|b\n"),
        row_count(alloc, "a\n\nb"),
        paragraph_count(alloc, ""),
        paragraph_count(alloc, "a\n\n"),
    );
    let counted = (
        row_count(alloc, "# two\na|b\n|"),
        paragraph_count(alloc, "a\nb\n\nc"),
    );
    assert!(rt; refused == (None, None, None, None, None, None) && counted == (Some(2), Some(2)));
}

/// Whether a text is read as so many fields.
fn are_fields(kind: &str, text: &'static str) -> Option<bool> {
    Some(match kind {
        "two" => two_fields(text).is_ok(),
        "three" => three_fields(text).is_ok(),
        "four" => four_fields(text).is_ok(),
        "five" => five_fields(text).is_ok(),
        _ => return None,
    })
}

/// Whether a text is read as a field of numbers of this kind.
fn are_numbers(alloc: Global, kind: &str, text: &'static str) -> Option<bool> {
    Some(match kind {
        "number" => number_of::<u32>(text).is_ok(),
        "pair" => two_numbers::<u32>(text).is_ok(),
        "triple" => three_numbers::<u32>(text).is_ok(),
        "numbers" => numbers_of::<u64>(alloc, text).is_ok(),
        _ => return None,
    })
}

/// Whether a text is read as a field of this kind. There is no other kind.
fn is_shape(alloc: Global, kind: &str, text: &'static str) -> Option<bool> {
    Some(match kind {
        "size" => size_of(text).is_ok(),
        "vertices" => vertices_of(alloc, text).is_ok(),
        "piece" => piece_of(text).is_ok(),
        "set" => set_of(alloc, text).is_ok(),
        "sets" => sets_of(alloc, text).is_ok(),
        _ => return None,
    })
}

/// How a text is to be read, the text, and whether it is: rows with another number of fields, fields without their numbers,
/// and lists with another word.
const READ: &str = "two |refused
two a|refused
two a|b|c|refused
two a|b||refused
two a|b|c|d|e|f|refused
three |refused
three a|b|refused
three a|b|c|d|refused
three a|b|c||refused
three a|b|c|d|e|f|refused
four |refused
four a|b|c|refused
four a|b|c|d||refused
four a|b|c|d|e|f|refused
five |refused
five a|b|c|d|refused
five a|b|c|d|e||refused
five a|b|c|d|e|f|refused
number |refused
number x|refused
number 1x|refused
number -1|refused
number 4294967296|refused
pair 1|refused
pair 1 2 3|refused
pair 1  2|refused
pair 1 x|refused
triple 1 2|refused
triple 1 2 3 4|refused
triple x 2 3|refused
numbers 1 2 x|refused
size 1 2|refused
vertices 0 v1|refused
piece |refused
piece 0|refused
piece E0|refused
piece w0|refused
piece e|refused
piece v-1|refused
set e0 1|refused
sets e0;e1|refused
# texts that are read
two ||read
three a||c|read
four a|b|c|d|read
five a|b|c|d|e|read
pair 1 2|read
triple 1 2 3|read
sets e0;;|read";

struct Readings;

impl Answers for Readings {
    fn answer(&self, alloc: Global, given: &'static str) -> Result<String, Fail> {
        let (kind, text) = given.split_once(' ').ok_or("a kind")?;
        let is_read = are_fields(kind, text)
            .or(are_numbers(alloc, kind, text))
            .or(is_shape(alloc, kind, text))
            .ok_or("a kind")?;
        Ok(String::from_str(alloc, if is_read { "read" } else { "refused" })?)
    }
}

#[test]
fn other_rows_and_fields_are_refused(rt: HostRuntime) -> Result<(), Fail> {
    check_rows(rt.alloc(), READ, &Readings)
}

/// Whether all rows of a table have the answers that they want.
fn passes<R: Eprint>(rt: &R, alloc: Global, table: &'static str) -> bool {
    check_rows(alloc, table, &Readings).report(rt) == ExitCode::SUCCESS
}

#[test]
fn a_table_with_another_answer_fails(rt: HostRuntime) {
    let right = passes(&rt, rt.alloc(), "number 1|read\nnumber x|refused");
    let first = passes(&rt, rt.alloc(), "number x|read\nnumber 1|read");
    let last = passes(&rt, rt.alloc(), "number 1|read\nnumber x|read");
    let barless = passes(&rt, rt.alloc(), "number 1|read\nnumber 1");
    let rowless = passes(&rt, rt.alloc(), "# none");
    assert!(rt; right && !first && !last && !barless && !rowless);
}
