//! Reads a text of guides.

ghost use Rattle.std.specs.Prelude.{◌≡◌, IfOk, IfErr};
ghost use Rattle.text_scan.specs.Moves.{Moves};
ghost use Rattle.guide_text.specs.GuideReads.{RefusesGuides, IsGuideReadAs};
ghost use Rattle.guide_text.specs.ReadGuides.{rects_at, guide_at, guides_in};

use crate::guide::Guide;
use crate::guide_error::GuideError;
use crate::rect::{Rect, Rects};
use crate::tokens::{is_closed, mark, number, rect, token};
use grid_graph::Name;
use std::alloc::Global;
use text_scan::Scanner;

/// The guides of a text.
pub fn read_guides(alloc: Global, bytes: &[u8]) -> Result<Vec<Guide>, GuideError>
    ensures guides { IfOk result (λ guides. guides_in bytes.now ≡ Ok guides.items) }
    ensures refusal { IfErr result (λ e. RefusesGuides e (guides_in bytes.now)) }
{
    let mut scanner = Scanner::over(bytes);
    let mut guides = Vec::new(alloc);
    while scanner.peek().is_some() {
        guides.push(guide(alloc, &mut scanner)?)?;
    }
    Ok(guides)
}

/// The next guide.
#[tactic(auto, unfolding(crate::specs::ReadGuides::guide_at))]
fn guide(alloc: Global, scanner: &mut Scanner<'_>) -> Result<Guide, GuideError>
    ensures guide { IsGuideReadAs (λ g. g) result scanner.new (guide_at scanner.old) }
    ensures passed { IfOk result (λ _. Moves 1 scanner.old scanner.new) }
{
    let name = token(scanner)?;
    let name = scanner.bytes(name);
    let id = number(scanner, 0, i64::from(u32::MAX))?;
    mark(scanner, b"(")?;
    let rects = rects(alloc, scanner)?;
    mark(scanner, b")")?;
    let name = Vec::from_slice(alloc, name)?;
    Ok(Guide {
        name: Name::of(name),
        id: id as u32,
        rects: Rects::of(rects),
    })
}

/// The rectangles before the token that begins with `)`.
fn rects(alloc: Global, scanner: &mut Scanner<'_>) -> Result<Vec<Rect>, GuideError>
    ensures rects { IsGuideReadAs (λ r. r.items) result scanner.new (rects_at scanner.old) }
    ensures passed { IfOk result (λ _. Moves 0 scanner.old scanner.new) }
{
    let mut rects = Vec::new(alloc);
    while !is_closed(scanner) {
        rects.push(rect(scanner)?)?;
    }
    Ok(rects)
}
