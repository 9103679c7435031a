//! The greatest common divisor.

ghost use Rattle.std.specs.Int.{IsGcd};

/// The greatest number that divides both, by remainders.
pub fn greatest_divisor(a: u128, b: u128) -> u128
    ensures { IsGcd a b result }
{
    let (mut x, mut y) = (a, b);
    while y != 0 {
        let rest = x % y;
        x = y;
        y = rest;
    }
    x
}
