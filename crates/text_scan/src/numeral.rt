//! A number as bytes spell it.

ghost use Rattle.std.specs.Prelude.{◌≡◌, ◌+◌, ◌≤◌, pos, neg_ℤ, length, drop, ℤ, SomeIff, FitsSigned, if◌then◌else◌, IsTrue};
ghost use Rattle.std.specs.Int.{w128};
ghost use Rattle.std.specs.Char.{is_ascii_digit};
ghost use Rattle.std.specs.List.{prefix_len};
ghost use Rattle.text_scan.specs.Numbers.{is_negative, sign_len, unsigned, is_number, value_of, is_within, token_number};

use crate::magnitude::magnitude;
use crate::number_fault::NumberFault;
use crate::runs::digits_end;

/// The number from `lo` to `hi` that the bytes spell, of which the first stands at `at`.
pub fn number_in(bytes: &[u8], at: usize, lo: i128, hi: i128) -> Result<i128, NumberFault>
    ensures { result ≡ token_number lo hi (record { place = at; bytes = bytes.now }) }
{
    if is_number(bytes) {
        value_within(bytes, at, lo, hi)
    } else {
        Err(NumberFault::NotNumber { at })
    }
}

/// Whether the bytes are an optional sign, one digit or more, and nothing else.
#[tactic(auto, using(crate::proofs::Digits::all_digits))]
pub fn is_number(bytes: &[u8]) -> bool
    ensures { result ≡ is_number bytes.now }
{
    let digits = unsigned(bytes);
    !digits.is_empty() && digits_end(digits, 0) == digits.len()
}

/// The value of a number whose first byte stands at `at`, where it is from `lo` to `hi`.
fn value_within(bytes: &[u8], at: usize, lo: i128, hi: i128) -> Result<i128, NumberFault>
    requires { IsTrue (is_number bytes.now) }
    ensures { result ≡ (if is_within lo hi (value_of bytes.now) then Ok (value_of bytes.now) else Err (NumberFault.OutOfRange at)) }
{
    in_range(value_of(bytes), at, lo, hi)
}

/// The value of a number, where 128 bits hold it.
pub fn value_of(bytes: &[u8]) -> Option<i128>
    requires { IsTrue (is_number bytes.now) }
    ensures { SomeIff result (FitsSigned w128 (value_of bytes.now)) (value_of bytes.now) }
{
    signed(is_negative(bytes), magnitude(unsigned(bytes)))
}

/// A value that 128 bits may hold, where it is from `lo` to `hi`.
pub fn in_range(value: Option<i128>, at: usize, lo: i128, hi: i128) -> Result<i128, NumberFault>
    ensures { (v : ℤ) → SomeIff value (FitsSigned w128 v) v → result ≡ (if is_within lo hi v then Ok v else Err (NumberFault.OutOfRange at)) }
{
    match value {
        Some(value) if lo <= value && value <= hi => Ok(value),
        _ => Err(NumberFault::OutOfRange { at }),
    }
}

/// The place behind a sign, if one stands at `at`, and the digits after it.
pub fn number_end(bytes: &[u8], at: usize) -> usize
    requires { at ≤ length bytes.now }
    ensures end { result ≡ at + (sign_len (drop at bytes.now) + prefix_len is_ascii_digit (unsigned (drop at bytes.now))) }
    ensures within { result ≤ length bytes.now }
{
    let sign = match bytes.get(at) {
        Some(b'+' | b'-') => 1,
        _ => 0,
    };
    digits_end(bytes, at + sign)
}

fn unsigned(bytes: &[u8]) -> &[u8]
    ensures { result.now ≡ unsigned bytes.now }
{
    match bytes {
        [b'+' | b'-', digits @ ..] => digits,
        _ => bytes,
    }
}

fn is_negative(bytes: &[u8]) -> bool
    ensures { result ≡ is_negative bytes.now }
{
    bytes.first() == Some(&b'-')
}

/// The number with this sign and magnitude, where 128 bits hold it.
fn signed(negative: bool, magnitude: u128) -> Option<i128>
    ensures { let value = (if negative then neg_ℤ (pos magnitude) else pos magnitude) in SomeIff result (FitsSigned w128 value) value }
{
    if negative {
        0i128.checked_sub_unsigned(magnitude)
    } else {
        i128::try_from(magnitude).ok()
    }
}
