//! Rules by which prices follow loads.

ghost use Rattle.std.specs.Prelude.{◌≡◌, ◌*◌, ◌/◌, ◌<◌};
ghost use Rattle.hot_cuts.specs.Searches.{part_of_number};
ghost use Rattle.tile_graphs.specs.Fullness.{in_word};

use edge_prices::MAX_PRICE;

/// What prices are to prove.
#[derive(Debug, Drop, Clone, Copy, PartialEq, Eq)]
pub(crate) enum Goal {
    /// How full the fullest edge is.
    Bound,
    /// Overflow.
    Overflow,
}

/// So many parts of a price are counted where prices rise and fall.
pub(crate) const GRAIN: u64 = 1 << 16;

/// The greatest price, in these parts.
pub(crate) const TOP: u64 = MAX_PRICE as u64 * GRAIN;

/// How far prices rise and fall in the first round, in these parts. In each round it is this by the round's number.
pub(crate) const FIRST_STEP: u64 = TOP / 2;

/// The same where good prices are known.
pub(crate) const LATER_STEP: u64 = TOP / 8;

/// A part of a number, as great as another one is of all.
pub(crate) fn part_of(number: u64, part: u64, all: u64) -> u64
    ensures some { 0 < all → result ≡ in_word (number * part / all) }
    ensures none { all ≡ 0 → result ≡ 0 }
    ensures value { result ≡ part_of_number number part all }
{
    let product = u128::from(number) * u128::from(part);
    let share = product.checked_div(u128::from(all)).unwrap_or(0);
    u64::try_from(share).unwrap_or(u64::MAX)
}
