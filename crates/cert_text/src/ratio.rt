//! A fraction as a text states it.

/// A numerator and a denominator, perhaps not in lowest terms.
#[derive(Clone, Copy, Debug, Drop, PartialEq, Eq)]
pub struct Ratio {
    pub num: u128,
    pub den: u128,
}
