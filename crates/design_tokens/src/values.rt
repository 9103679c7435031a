//! What a token is: a word, a name, a number, or one of the single numbers of the format.

ghost use Rattle.std.specs.Prelude.{◌≡◌, ◌+◌, ◌-◌, ◌≤◌, true, IfOk};
ghost use Rattle.grid_graph.specs.Layouts.{IsPosition, IsTileSize};
ghost use Rattle.design_tokens.specs.Numbers.{word_at, name_at, number_at, capacity_at, width_at, spacing_at, side_at, count_at};
ghost use Rattle.design_tokens.specs.CutTokens.{keeps_name};
ghost use Rattle.design_tokens.specs.Steps.{ReadsNext};

use crate::cut_token::CutToken;
use crate::input_error::InputError;
use crate::input_fault::InputFault;
use crate::wanted::Wanted;
use grid_graph::{MAX_CAPACITY, MAX_DEMAND};
use std::alloc::Global;
use text_scan::Number;

/// The token as this word, byte by byte. Any other is `Syntax` at its place, with the word.
pub fn word(token: &CutToken, wanted: Wanted) -> Result<(), InputError>
    ensures { ReadsNext token.now (λ _. tt) result (word_at wanted) }
{
    if token.is_word(wanted) {
        Ok(())
    } else {
        Err(InputError::Input(InputFault::Syntax {
            at: token.place(),
            wanted,
        }))
    }
}

/// The token as a name: a copy of all its bytes, which have to be kept. Its one error is want of memory.
pub fn name(alloc: Global, token: &CutToken) -> Result<Vec<u8>, InputError>
    requires { keeps_name token.now ≡ true }
    ensures { ReadsNext token.now (λ v. v.items) result name_at }
{
    Ok(Vec::from_slice(alloc, token.name())?)
}

/// The token as a number from -2^40 to 2^40, with the place of its first byte: decimal digits behind
/// `+`, `-` or neither. A number beyond is `Range`, and any other token `Syntax` with `Wanted::Number`.
pub fn number(token: &CutToken) -> Result<Number, InputError>
    ensures number { ReadsNext token.now (λ x. x) result number_at }
    ensures range { IfOk result (λ x. IsPosition x.value) }
{
    Ok(token.number()?)
}

/// The token as the capacity of a layer, or as the level of an adjustment: 0 to 2^18. A number of
/// another value is `CapacityLimit`; what is none is refused as by `number`.
pub fn capacity(token: &CutToken) -> Result<u32, InputError>
    ensures capacity { ReadsNext token.now (λ x. x) result capacity_at }
    ensures limit { IfOk result (λ x. x ≤ MAX_CAPACITY) }
{
    let number = number(token)?;
    let level = number
        .within(0, MAX_CAPACITY)
        .ok_or(InputFault::CapacityLimit { at: number.at })?;
    Ok(level)
}

/// The token as the minimum width of a layer: 0 to 1023. A number of another value is `WidthLimit`;
/// what is none is refused as by `number`.
pub fn width(token: &CutToken) -> Result<u32, InputError>
    ensures width { ReadsNext token.now (λ x. x) result width_at }
    ensures limit { IfOk result (λ x. x ≤ MAX_DEMAND) }
{
    let number = number(token)?;
    let width = number
        .within(0, MAX_DEMAND)
        .ok_or(InputFault::WidthLimit { at: number.at })?;
    Ok(width)
}

/// The token as the minimum spacing of a layer of this width: the two sum to 1 at least, and to 1023 at
/// most. A number of another value is `WidthLimit`; what is none is refused as by `number`.
pub fn spacing(token: &CutToken, width: u32) -> Result<u32, InputError>
    ensures spacing { ReadsNext token.now (λ x. x) result (spacing_at width) }
    ensures least { IfOk result (λ x. 1 ≤ width + x) }
    ensures greatest { IfOk result (λ x. x ≤ MAX_DEMAND - width) }
{
    let number = number(token)?;
    let spacing = number
        .within(1u32.saturating_sub(width), MAX_DEMAND.saturating_sub(width))
        .ok_or(InputFault::WidthLimit { at: number.at })?;
    Ok(spacing)
}

/// The token as the width or the height of a tile: 1 or more. A smaller number is `TileSize`; what is
/// none is refused as by `number`.
pub fn side(token: &CutToken) -> Result<i64, InputError>
    ensures side { ReadsNext token.now (λ x. x) result side_at }
    ensures size { IfOk result (λ x. IsTileSize x) }
{
    let number = number(token)?;
    if number.value < 1 {
        return Err(InputError::Input(InputFault::TileSize { at: number.at }));
    }
    Ok(number.value)
}

/// The token as how many nets, pins or adjustments follow: 0 to `limit`. A number of another value is
/// `NetLimit`; what is none is refused as by `number`.
pub fn count(token: &CutToken, limit: u32) -> Result<u32, InputError>
    ensures count { ReadsNext token.now (λ x. x) result (count_at limit) }
    ensures limit { IfOk result (λ x. x ≤ limit) }
{
    let number = number(token)?;
    let count = number
        .within(0, limit)
        .ok_or(InputFault::NetLimit { at: number.at })?;
    Ok(count)
}
