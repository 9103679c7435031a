//! The value of decimal digits.

ghost use Rattle.std.specs.Prelude.{◌≡◌, ◌-◌, ◌≤◌, ◌^◌, length, min, IsTrue};
ghost use Rattle.std.specs.Str.{all_ascii_digits};
ghost use Rattle.std.specs.Str.Parse.{digits_value};

/// How many digits always fit 64 bits.
const SHORT: usize = 19;

/// The value of digits, or the greatest number of 128 bits where that is less.
pub fn magnitude(digits: &[u8]) -> u128
    requires { IsTrue (all_ascii_digits digits.now) }
    ensures { result ≡ min (digits_value 10 digits.now) (2 ^ 128 - 1) }
{
    if digits.len() <= SHORT {
        u128::from(short(digits))
    } else {
        long(digits)
    }
}

fn short(digits: &[u8]) -> u64
    requires digits { IsTrue (all_ascii_digits digits.now) }
    requires few { length digits.now ≤ SHORT }
    ensures { result ≡ digits_value 10 digits.now }
{
    let mut value = 0u64;
    for d in digits {
        value = value * 10 + u64::from(*d - b'0');
    }
    value
}

fn long(digits: &[u8]) -> u128
    requires { IsTrue (all_ascii_digits digits.now) }
    ensures { result ≡ min (digits_value 10 digits.now) (2 ^ 128 - 1) }
{
    let mut value = 0u128;
    for d in digits {
        value = value
            .saturating_mul(10)
            .saturating_add(u128::from(*d - b'0'));
    }
    value
}
