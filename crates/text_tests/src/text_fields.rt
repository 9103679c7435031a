//! Texts that were written, as fields of rows.

use std::alloc::Global;
use std::test::Fail;

/// The field that stands for a text: each line end is a `;`. A text that has a `;` of its own is refused.
pub(crate) fn field_of(alloc: Global, text: &[u8]) -> Result<String, Fail> {
    let text = str::from_utf8(text)?;
    if text.contains(';') {
        return Err(Fail::new("a text with a semicolon"));
    }
    Ok(text.replace(alloc, '\n', ";")?)
}
