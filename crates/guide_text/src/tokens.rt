//! The tokens of a text of guides, and rectangles.

ghost use Rattle.std.specs.Prelude.{◌≡◌, ◌≤◌, ◌≤ℤ◌, length, IfOk};
ghost use Rattle.text_scan.specs.Moves.{Moves};
ghost use Rattle.text_scan.specs.Reading.{is_next, past_blanks};
ghost use Rattle.text_scan.specs.Tokens as text;
ghost use Rattle.guide_text.specs.GuideReads.{IsGuideReadAs};
ghost use Rattle.guide_text.specs.ReadGuides.{guide_token_at, guide_number_at, guide_mark_at, border_at, rect_at};

use crate::guide_error::GuideError;
use crate::rect::Rect;
use text_scan::{Scanner, Span};

/// How far the numbers of a rectangle may be from zero.
const MAX_BORDER: i64 = 1 << 41;

/// Any token.
pub(crate) fn token(scanner: &mut Scanner<'_>) -> Result<Span, GuideError>
    ensures token { IsGuideReadAs (text.token_at scanner.old.text) result scanner.new (guide_token_at scanner.old) }
    ensures bounds { IfOk result (λ span. (span.start ≤ span.end) × (span.end ≤ length scanner.old.text)) }
    ensures text { scanner.new.text ≡ scanner.old.text }
    ensures passed { IfOk result (λ _. Moves 1 scanner.old scanner.new) }
{
    match scanner.token() {
        Some(span) => Ok(span),
        None => Err(GuideError::Syntax {
            at: scanner.place(),
        }),
    }
}

/// A token that is a number from `lo` to `hi`.
pub(crate) fn number(scanner: &mut Scanner<'_>, lo: i64, hi: i64) -> Result<i64, GuideError>
    ensures number { IsGuideReadAs (λ x. x) result scanner.new (guide_number_at lo hi scanner.old) }
    ensures passed { IfOk result (λ _. Moves 1 scanner.old scanner.new) }
    ensures range { IfOk result (λ x. (lo ≤ℤ x) × (x ≤ℤ hi)) }
{
    Ok(scanner.number(lo, hi)?.value)
}

/// The token `mark`.
#[tactic(auto, unfolding(crate::specs::ReadGuides::guide_mark_at))]
pub(crate) fn mark(scanner: &mut Scanner<'_>, mark: &[u8]) -> Result<(), GuideError>
    ensures mark { IsGuideReadAs (λ _. tt) result scanner.new (guide_mark_at mark.now scanner.old) }
    ensures passed { IfOk result (λ _. Moves 1 scanner.old scanner.new) }
{
    let span = token(scanner)?;
    if scanner.bytes(span) != mark {
        return Err(GuideError::Syntax { at: span.start });
    }
    Ok(())
}

/// Whether a token that begins with `)` comes next. Only the blanks before it are passed over.
pub(crate) fn is_closed(scanner: &mut Scanner<'_>) -> bool
    ensures byte { result ≡ is_next 41 scanner.old }
    ensures passed { scanner.new ≡ past_blanks scanner.old }
    ensures text { scanner.new.text ≡ scanner.old.text }
    ensures within { scanner.new.place ≤ length scanner.new.text }
{
    scanner.peek() == Some(b')')
}

/// A number of a rectangle.
fn border(scanner: &mut Scanner<'_>) -> Result<i64, GuideError>
    ensures number { IsGuideReadAs (λ x. x) result scanner.new (border_at scanner.old) }
    ensures passed { IfOk result (λ _. Moves 1 scanner.old scanner.new) }
{
    number(scanner, -MAX_BORDER, MAX_BORDER)
}

/// A rectangle.
#[tactic(auto, unfolding(crate::specs::ReadGuides::rect_at))]
pub(crate) fn rect(scanner: &mut Scanner<'_>) -> Result<Rect, GuideError>
    ensures rect { IsGuideReadAs (λ r. r) result scanner.new (rect_at scanner.old) }
    ensures passed { IfOk result (λ _. Moves 1 scanner.old scanner.new) }
{
    let x1 = border(scanner)?;
    let y1 = border(scanner)?;
    let x2 = border(scanner)?;
    let y2 = border(scanner)?;
    let layer = border(scanner)?;
    Ok(Rect {
        x1,
        y1,
        x2,
        y2,
        layer,
    })
}
