//! The tokens of a text of edits.

ghost use Rattle.std.specs.Prelude.{◌≡◌, ◌≤◌, ◌≤ℤ◌, length, IfOk};
ghost use Rattle.text_scan.specs.Tokens as text;
ghost use Rattle.edit_text.specs.EditReads.{IsEditReadAs};
ghost use Rattle.edit_text.specs.ReadEdits.{edit_token_at, edit_number_at, natural_at, edit_mark_at, end_at};

use crate::edit_text_error::EditTextError;
use text_scan::{Scanner, Span};

/// Any token.
pub(crate) fn token(scanner: &mut Scanner<'_>) -> Result<Span, EditTextError>
    ensures token { IsEditReadAs (text.token_at scanner.old.text) result scanner.new (edit_token_at scanner.old) }
    ensures bounds { IfOk result (λ span. (span.start ≤ span.end) × (span.end ≤ length scanner.old.text)) }
    ensures text { scanner.new.text ≡ scanner.old.text }
{
    match scanner.token() {
        Some(span) => Ok(span),
        None => Err(EditTextError::Syntax {
            at: scanner.place(),
        }),
    }
}

/// A token that is a number from `lo` to `hi`.
pub(crate) fn number(scanner: &mut Scanner<'_>, lo: i64, hi: i64) -> Result<i64, EditTextError>
    ensures number { IsEditReadAs (λ x. x) result scanner.new (edit_number_at lo hi scanner.old) }
    ensures range { IfOk result (λ x. (lo ≤ℤ x) × (x ≤ℤ hi)) }
{
    Ok(scanner.number(lo, hi)?.value)
}

/// A token that is a number from 0 to `hi`.
#[tactic(auto, unfolding(crate::specs::ReadEdits::natural_at))]
pub(crate) fn natural(scanner: &mut Scanner<'_>, hi: u32) -> Result<u32, EditTextError>
    ensures number { IsEditReadAs (λ x. x) result scanner.new (natural_at hi scanner.old) }
    ensures limit { IfOk result (λ x. x ≤ hi) }
{
    Ok(number(scanner, 0, i64::from(hi))? as u32)
}

/// The token `mark`.
#[tactic(auto, unfolding(crate::specs::ReadEdits::edit_mark_at))]
pub(crate) fn mark(scanner: &mut Scanner<'_>, mark: &[u8]) -> Result<(), EditTextError>
    ensures mark { IsEditReadAs (λ _. tt) result scanner.new (edit_mark_at mark.now scanner.old) }
{
    let span = token(scanner)?;
    if scanner.bytes(span) != mark {
        return Err(EditTextError::Syntax { at: span.start });
    }
    Ok(())
}

/// The end of the text: no token is left.
pub(crate) fn end(scanner: &mut Scanner<'_>) -> Result<(), EditTextError>
    ensures { IsEditReadAs (λ _. tt) result scanner.new (end_at scanner.old) }
{
    match scanner.token() {
        None => Ok(()),
        Some(span) => Err(EditTextError::Syntax { at: span.start }),
    }
}
