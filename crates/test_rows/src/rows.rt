//! The rows of a table, their fields, and what is found of a row.

ghost use Rattle.std.specs.Prelude.{◌≡◌, ◌<◌, ◌↔◌, IfOk, IfSome, IsTrue, is_ok, length};
ghost use Rattle.test_rows.specs.Fields.{AreTwoFields, AreThreeFields, AreFourFields, AreFiveFields};

use crate::fault::RowFault;
use std::alloc::{AllocError, Global};
use std::test::Fail;

/// The rows of a table: its lines, but for those that begin with `#`. A table without rows is refused.
pub fn rows_of(alloc: Global, table: &'static str) -> Result<Vec<&'static str>, RowFault>
    ensures { IfOk result (λ rows. 0 < length rows.items) }
{
    let mut rows = Vec::new(alloc);
    for line in table.split('\n') {
        if line.is_empty() {
            return Err(RowFault::EmptyLine);
        }
        if !line.starts_with('#') {
            rows.push(line)?;
        }
    }
    if rows.is_empty() {
        return Err(RowFault::NoRows);
    }
    Ok(rows)
}

/// The paragraphs of a table, with an empty line between two.
pub fn paragraphs_of(alloc: Global, table: &'static str) -> Result<Vec<&'static str>, RowFault> {
    let mut paragraphs = Vec::new(alloc);
    for paragraph in table.split("\n\n") {
        if paragraph.is_empty() {
            return Err(RowFault::EmptyLine);
        }
        paragraphs.push(paragraph)?;
    }
    Ok(paragraphs)
}

/// The two fields of a row.
pub fn two_fields(row: &'static str) -> Result<(&'static str, &'static str), RowFault>
    ensures { IfOk result (λ fields. AreTwoFields row.now fields.0.now fields.1.now) }
{
    two_parts(row).ok_or(RowFault::OtherFields(row))
}

/// The three fields of a row.
pub fn three_fields(
    row: &'static str,
) -> Result<(&'static str, &'static str, &'static str), RowFault>
    ensures { IfOk result (λ fields. AreThreeFields row.now fields.0.now fields.1.now fields.2.now) }
{
    three_parts(row).ok_or(RowFault::OtherFields(row))
}

/// The four fields of a row.
pub fn four_fields(
    row: &'static str,
) -> Result<(&'static str, &'static str, &'static str, &'static str), RowFault>
    ensures { IfOk result (λ fields. AreFourFields row.now fields.0.now fields.1.now fields.2.now fields.3.now) }
{
    four_parts(row).ok_or(RowFault::OtherFields(row))
}

/// The five fields of a row.
pub fn five_fields(
    row: &'static str,
) -> Result<
    (
        &'static str,
        &'static str,
        &'static str,
        &'static str,
        &'static str,
    ),
    RowFault,
>
    ensures { IfOk result (λ fields. AreFiveFields row.now fields.0.now fields.1.now fields.2.now fields.3.now fields.4.now) }
{
    five_parts(row).ok_or(RowFault::OtherFields(row))
}

fn two_parts(text: &'static str) -> Option<(&'static str, &'static str)>
    ensures { IfSome result (λ fields. AreTwoFields text.now fields.0.now fields.1.now) }
{
    let (first, second) = text.split_once('|')?;
    if second.contains('|') {
        return None;
    }
    Some((first, second))
}

fn three_parts(text: &'static str) -> Option<(&'static str, &'static str, &'static str)>
    ensures { IfSome result (λ fields. AreThreeFields text.now fields.0.now fields.1.now fields.2.now) }
{
    let (first, rest) = text.split_once('|')?;
    let (second, third) = two_parts(rest)?;
    Some((first, second, third))
}

fn four_parts(
    text: &'static str,
) -> Option<(&'static str, &'static str, &'static str, &'static str)>
    ensures { IfSome result (λ fields. AreFourFields text.now fields.0.now fields.1.now fields.2.now fields.3.now) }
{
    let (first, rest) = text.split_once('|')?;
    let (second, third, fourth) = three_parts(rest)?;
    Some((first, second, third, fourth))
}

fn five_parts(
    text: &'static str,
) -> Option<
    (
        &'static str,
        &'static str,
        &'static str,
        &'static str,
        &'static str,
    ),
>
    ensures { IfSome result (λ fields. AreFiveFields text.now fields.0.now fields.1.now fields.2.now fields.3.now fields.4.now) }
{
    let (first, rest) = text.split_once('|')?;
    let (second, third, fourth, fifth) = four_parts(rest)?;
    Some((first, second, third, fourth, fifth))
}

/// The text that a field stands for: each `;` in it is a line end.
pub fn text_of(alloc: Global, field: &str) -> Result<String, AllocError> {
    field.replace(alloc, ';', "\n")
}

/// The bytes that a field stands for: `;` is a line end, and `?` and `~` are the bytes 0xff and 0x80, which are no text.
pub fn bytes_of(alloc: Global, field: &str) -> Result<Vec<u8>, AllocError> {
    let mut bytes = Vec::new(alloc);
    for byte in field.as_bytes() {
        bytes.push(match *byte {
            b';' => b'\n',
            b'?' => 0xff,
            b'~' => 0x80,
            other => other,
        })?;
    }
    Ok(bytes)
}

/// Fails where what was found of a row is not what the row wants.
pub fn agree(row: &str, found: &str, wanted: &str) -> Result<(), Fail>
    ensures { IsTrue (is_ok result) ↔ found.now ≡ wanted.now }
{
    if found == wanted {
        Ok(())
    } else {
        Err(Fail::new(format_args!("found {found} in the row {row}")))
    }
}
