//! Fractions in lowest terms.
//!
//! ```text
//! let ratio = Fraction::of(load, capacity);
//! if ratio.less_or_equal(&limit) { .. }
//! ```
//!
//! It stands on nothing. No call takes memory.
//!
//! Promised: a fraction is in lowest terms, so that two are equal exactly where their values are, and it is compared
//! exactly.

#![tactic(auto)]

mod divisor;
mod fraction;

pub use fraction::Fraction;
