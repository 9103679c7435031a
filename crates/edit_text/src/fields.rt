//! What the edits of a text say.

ghost use Rattle.std.specs.Prelude.{◌≡◌, ◌≤◌, All, IfOk, length};
ghost use Rattle.grid_graph.specs.Layouts.{IsPosition};
ghost use Rattle.edit_text.specs.EditRanges.{IsEditInRange, IsPinInRange, ArePinsInRange};
ghost use Rattle.edit_text.specs.EditReads.{IsEditReadAs};
ghost use Rattle.edit_text.specs.ReadEdits.{coordinate_at, pin_at, pins_at, wired_at, drop_at, add_at, change_at, edit_at};

use crate::edit::{Edit, Pin, Pins};
use crate::edit_text_error::EditTextError;
use crate::tokens::{natural, number, token};
use grid_graph::{MAX_DEMAND, MAX_NUMBER, MAX_PINS, Name};
use std::alloc::Global;
use text_scan::Scanner;

/// A coordinate or a layer of a pin.
fn coordinate(scanner: &mut Scanner<'_>) -> Result<i64, EditTextError>
    ensures number { IsEditReadAs (λ x. x) result scanner.new (coordinate_at scanner.old) }
    ensures range { IfOk result IsPosition }
{
    number(scanner, -MAX_NUMBER, MAX_NUMBER)
}

/// A pin.
#[tactic(auto, unfolding(crate::specs::ReadEdits::pin_at))]
fn pin(scanner: &mut Scanner<'_>) -> Result<Pin, EditTextError>
    ensures pin { IsEditReadAs (λ p. p) result scanner.new (pin_at scanner.old) }
    ensures range { IfOk result IsPinInRange }
{
    let x = coordinate(scanner)?;
    let y = coordinate(scanner)?;
    let layer = coordinate(scanner)?;
    Ok(Pin { x, y, layer })
}

/// So many pins.
fn pins(alloc: Global, scanner: &mut Scanner<'_>, count: u32) -> Result<Vec<Pin>, EditTextError>
    ensures pins { IsEditReadAs (λ v. v.items) result scanner.new (pins_at count scanner.old) }
    ensures count { IfOk result (λ v. length v.items ≡ count) }
    ensures range { IfOk result (λ v. All IsPinInRange v.items) }
{
    let mut pins = Vec::new(alloc);
    for _ in 0..count {
        pins.push(pin(scanner)?)?;
    }
    Ok(pins)
}

/// How many pins, the width, and the pins.
#[tactic(auto, unfolding(crate::specs::ReadEdits::wired_at))]
fn wired(alloc: Global, scanner: &mut Scanner<'_>) -> Result<(u32, Pins), EditTextError>
    ensures wired { IsEditReadAs (λ x. x) result scanner.new (wired_at scanner.old) }
    ensures width { IfOk result (λ x. x.0 ≤ MAX_DEMAND) }
    ensures pins { IfOk result (λ x. ArePinsInRange x.1) }
{
    let count = natural(scanner, MAX_PINS)?;
    let width = natural(scanner, MAX_DEMAND)?;
    let pins = pins(alloc, scanner, count)?;
    Ok((width, Pins::of(pins)))
}

/// What stands behind `drop`.
#[tactic(auto, unfolding(crate::specs::ReadEdits::drop_at))]
fn dropped(scanner: &mut Scanner<'_>) -> Result<Edit, EditTextError>
    ensures edit { IsEditReadAs (λ e. e) result scanner.new (drop_at scanner.old) }
    ensures range { IfOk result IsEditInRange }
{
    let id = natural(scanner, u32::MAX)?;
    Ok(Edit::Drop { id })
}

/// What stands behind `add`.
#[tactic(auto, unfolding(crate::specs::ReadEdits::add_at))]
fn added(alloc: Global, scanner: &mut Scanner<'_>) -> Result<Edit, EditTextError>
    ensures edit { IsEditReadAs (λ e. e) result scanner.new (add_at scanner.old) }
    ensures range { IfOk result IsEditInRange }
{
    let name = token(scanner)?;
    let name = scanner.bytes(name);
    let id = natural(scanner, u32::MAX)?;
    let (width, pins) = wired(alloc, scanner)?;
    let name = Name::of(Vec::from_slice(alloc, name)?);
    Ok(Edit::Add {
        name,
        id,
        width,
        pins,
    })
}

/// What stands behind `change`.
#[tactic(auto, unfolding(crate::specs::ReadEdits::change_at))]
fn changed(alloc: Global, scanner: &mut Scanner<'_>) -> Result<Edit, EditTextError>
    ensures edit { IsEditReadAs (λ e. e) result scanner.new (change_at scanner.old) }
    ensures range { IfOk result IsEditInRange }
{
    let id = natural(scanner, u32::MAX)?;
    let (width, pins) = wired(alloc, scanner)?;
    Ok(Edit::Change { id, width, pins })
}

/// An edit.
#[tactic(auto, unfolding(crate::specs::ReadEdits::edit_at))]
pub(crate) fn edit(alloc: Global, scanner: &mut Scanner<'_>) -> Result<Edit, EditTextError>
    ensures edit { IsEditReadAs (λ e. e) result scanner.new (edit_at scanner.old) }
    ensures range { IfOk result IsEditInRange }
{
    let span = token(scanner)?;
    let word = scanner.bytes(span);
    if word == b"drop".as_slice() {
        return dropped(scanner);
    }
    if word == b"add".as_slice() {
        return added(alloc, scanner);
    }
    if word == b"change".as_slice() {
        return changed(alloc, scanner);
    }
    Err(EditTextError::Syntax { at: span.start })
}
