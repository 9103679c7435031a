//! What the bytes of a token so far are as a number.

ghost use Rattle.std.specs.Prelude.{◌≡◌, ◌≤◌, pos, neg_ℤ, if◌then◌else◌, IfOk};
ghost use Rattle.grid_graph.specs.Layouts.{IsPosition};
ghost use Rattle.design_tokens.specs.declared.numeral.Numeral.TheVariants.{Digits};
ghost use Rattle.design_tokens.specs.Numerals.{first_byte, next_digit, next_numeral, numeral_behind, magnitude_after, numeral_number};

use text_scan::{Number, NumberFault};

/// The greatest magnitude of a number.
const GREATEST: u64 = 1 << 40;

/// What bytes are as a number. A magnitude that is too great may be less than the digits say, and is
/// too great still.
#[derive(Clone, Copy, Debug, Drop)]
pub(crate) enum Numeral {
    /// No bytes.
    Nothing,
    /// A sign alone.
    Sign { negative: bool },
    /// Digits, behind a sign or none.
    Digits { negative: bool, magnitude: u64 },
    /// No number, whatever follows.
    Other,
}

impl Numeral {
    /// The same with one more byte.
    pub(crate) fn with(self, byte: u8) -> Numeral
        ensures { result ≡ next_numeral self byte }
    {
        match self {
            Numeral::Nothing => first(byte),
            Numeral::Sign { negative } => next(negative, 0, byte),
            Numeral::Digits {
                negative,
                magnitude,
            } => next(negative, magnitude, byte),
            Numeral::Other => Numeral::Other,
        }
    }

    /// The same with more bytes.
    pub(crate) fn with_all(self, bytes: &[u8]) -> Numeral
        ensures { result ≡ numeral_behind self bytes.now }
    {
        match self {
            Numeral::Digits {
                negative,
                magnitude,
            } => more_digits(negative, magnitude, bytes),
            Numeral::Other => Numeral::Other,
            _ => self.with_each(bytes),
        }
    }

    /// The same with one more byte after the other.
    fn with_each(self, bytes: &[u8]) -> Numeral
        ensures { result ≡ numeral_behind self bytes.now }
    {
        let mut numeral = self;
        for byte in bytes {
            numeral = numeral.with(*byte);
        }
        numeral
    }

    /// The number from -2^40 to 2^40, of which the first byte stands at `at`.
    pub(crate) fn number(self, at: usize) -> Result<Number, NumberFault>
        ensures number { result ≡ numeral_number at self }
        ensures range { IfOk result (λ x. IsPosition x.value) }
    {
        match self {
            Numeral::Digits {
                negative,
                magnitude,
            } => {
                if magnitude <= GREATEST {
                    Ok(Number {
                        value: signed(negative, magnitude),
                        at,
                    })
                } else {
                    Err(NumberFault::OutOfRange { at })
                }
            }
            _ => Err(NumberFault::NotNumber { at }),
        }
    }
}

/// What the first byte is.
fn first(byte: u8) -> Numeral
    ensures { result ≡ first_byte byte }
{
    match byte {
        b'-' => Numeral::Sign { negative: true },
        b'+' => Numeral::Sign { negative: false },
        _ => next(false, 0, byte),
    }
}

/// What digits of this magnitude are with one more byte.
fn next(negative: bool, magnitude: u64, byte: u8) -> Numeral
    ensures { result ≡ next_digit negative magnitude byte }
{
    if byte.is_ascii_digit() {
        Numeral::Digits {
            negative,
            magnitude: grown(magnitude, byte - b'0'),
        }
    } else {
        Numeral::Other
    }
}

/// What digits of this magnitude are with more bytes.
fn more_digits(negative: bool, magnitude: u64, bytes: &[u8]) -> Numeral
    ensures { result ≡ numeral_behind (Digits negative magnitude) bytes.now }
{
    let mut magnitude = magnitude;
    for byte in bytes {
        if !byte.is_ascii_digit() {
            return Numeral::Other;
        }
        magnitude = grown(magnitude, *byte - b'0');
    }
    Numeral::Digits {
        negative,
        magnitude,
    }
}

/// The magnitude with one more digit. One that is too great stays as it is.
fn grown(magnitude: u64, digit: u8) -> u64
    requires { digit ≤ 9 }
    ensures { result ≡ magnitude_after magnitude digit }
{
    if magnitude <= GREATEST {
        magnitude * 10 + u64::from(digit)
    } else {
        magnitude
    }
}

/// The number with this sign and magnitude.
fn signed(negative: bool, magnitude: u64) -> i64
    requires { magnitude ≤ GREATEST }
    ensures { result ≡ (if negative then neg_ℤ (pos magnitude) else pos magnitude) }
{
    let value = magnitude as i64;
    if negative { -value } else { value }
}
