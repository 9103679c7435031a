//! The number that a text goes on with.

ghost use Rattle.std.specs.Prelude.{◌≡◌, ◌<◌, ◌≤◌, length, drop, IfNone, IfSome, false};
ghost use Rattle.text_scan.specs.Fronts.{IsFrontOf};
ghost use Rattle.text_scan.specs.Numbers.{is_number, number_front};

use crate::numeral::{is_number, number_end, value_of};
use crate::short_digits::short_digits;

/// A number that a text goes on with, whatever stands behind it.
#[derive(Clone, Copy, Drop)]
pub struct NumberFront {
    /// The place behind its last digit.
    pub end: usize,
    /// Its value, where 128 bits hold it.
    pub value: Option<i128>,
}

/// The number whose first byte stands at `at`. Most have no sign and few digits, which are read in one pass.
pub fn number_front(bytes: &[u8], at: usize) -> Option<NumberFront>
    requires { at ≤ length bytes.now }
    ensures front { IfSome result (λ front. IsFrontOf bytes.now at front) }
    ensures none { IfNone result (is_number (number_front (drop at bytes.now)) ≡ false) }
{
    match short_digits(bytes, at) {
        Some(digits) if digits.end > at => Some(NumberFront {
            end: digits.end,
            value: Some(i128::from(digits.value)),
        }),
        _ => any_front(bytes, at),
    }
}

/// The same, whatever its sign and however many digits.
#[inline(never)]
fn any_front(bytes: &[u8], at: usize) -> Option<NumberFront>
    requires { at ≤ length bytes.now }
    ensures front { IfSome result (λ front. IsFrontOf bytes.now at front) }
    ensures none { IfNone result (is_number (number_front (drop at bytes.now)) ≡ false) }
{
    let end = number_end(bytes, at);
    let front = &bytes[at..end];
    if !is_number(front) {
        return None;
    }
    Some(NumberFront {
        end,
        value: value_of(front),
    })
}
