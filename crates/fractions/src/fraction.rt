//! A fraction in lowest terms.

ghost use Rattle.fractions.specs.LowestTerms.{IsLowest};
ghost use Rattle.fractions.specs.Limits.{numerator_limit, max_denominator};

use crate::divisor::greatest_divisor;

/// A fraction in lowest terms, so that two are equal exactly where their numbers are.
#[derive(Debug, Drop, Clone, Copy, PartialEq, Eq)]
pub struct Fraction {
    /// The numerator, below 2^70.
    pub num: u128,
    /// The denominator, from 1 to 2^58.
    pub den: u128,
    pub ghost lowest: { IsLowest num den },
}

impl Fraction {
    ghost use Rattle.std.specs.Prelude.{◌≡◌, ◌*◌, ◌≤◌, ◌<◌, ◌^◌, ◌↔◌, IsTrue};
    ghost use Rattle.fractions.specs.Fractions.{IsRatio, IsAtMost};

    /// The fraction num/den.
    pub fn of(num: u128, den: u128) -> Fraction
        requires num { num < numerator_limit }
        requires positive { 1 ≤ den }
        requires den { den ≤ max_denominator }
        ensures { IsRatio num den result }
    {
        let divisor = greatest_divisor(num, den);
        Fraction {
            num: num / divisor,
            den: den / divisor,
        }
    }

    /// Whether this fraction is at most the other one. Takes two products, neither of them rounded.
    pub fn less_or_equal(&self, other: &Fraction) -> bool
        ensures { IsTrue result ↔ IsAtMost self.now other.now }
    {
        self.num * other.den <= other.num * self.den
    }
}
