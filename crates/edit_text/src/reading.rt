//! Reads a text of edits.

ghost use Rattle.std.specs.Prelude.{◌≡◌, All, IfOk, IfErr, Ok};
ghost use Rattle.edit_text.specs.EditRanges.{IsEditInRange};
ghost use Rattle.edit_text.specs.EditReads.{IsEditReadAs, RefusesEdits};
ghost use Rattle.edit_text.specs.ReadEdits.{edits_at, edits_of};

use crate::edit::Edit;
use crate::edit_text_error::EditTextError;
use crate::fields::edit;
use crate::tokens::{end, mark, natural};
use std::alloc::Global;
use text_scan::Scanner;

/// The most edits of a text.
pub const MAX_EDITS: u32 = 1 << 24;

/// The edits of a text.
pub fn read_edits(alloc: Global, bytes: &[u8]) -> Result<Vec<Edit>, EditTextError>
    ensures edits { IfOk result (λ edits. edits_of bytes.now ≡ Ok edits.items) }
    ensures refusal { IfErr result (λ e. RefusesEdits e (edits_of bytes.now)) }
    ensures ranges { IfOk result (λ edits. All IsEditInRange edits.items) }
{
    let mut scanner = Scanner::over(bytes);
    mark(&mut scanner, b"edits")?;
    let count = natural(&mut scanner, MAX_EDITS)?;
    let edits = edits(alloc, &mut scanner, count)?;
    end(&mut scanner)?;
    Ok(edits)
}

/// So many edits.
fn edits(alloc: Global, scanner: &mut Scanner<'_>, count: u32) -> Result<Vec<Edit>, EditTextError>
    ensures edits { IsEditReadAs (λ v. v.items) result scanner.new (edits_at count scanner.old) }
    ensures ranges { IfOk result (λ v. All IsEditInRange v.items) }
{
    let mut edits = Vec::new(alloc);
    for _ in 0..count {
        edits.push(edit(alloc, scanner)?)?;
    }
    Ok(edits)
}
