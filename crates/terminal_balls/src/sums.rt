//! Sums of radii.

ghost use Rattle.std.specs.Prelude.{ℕ, ◌≡◌, ◌≤◌, ◌<◌, slice_index};
ghost use Rattle.steiner_tables.specs.Masks.{few_terminals};
ghost use Rattle.terminal_balls.specs.Balls.{AreSums, radii_sum, widest};

use crate::limits::{MASKS, MOST_TERMINALS};

/// The sum of the radii of each mask.
pub(crate) fn sums_of(radii: &[u64; MOST_TERMINALS]) -> [u64; MASKS]
    requires { (place : ℕ) → slice_index radii.now place ≤ widest }
    ensures { AreSums radii.now result }
{
    let mut sums = [0; MASKS];
    for mask in 0..MASKS {
        sums[mask] = sum_of(radii, mask as u32);
    }
    sums
}

/// The sum of a mask's radii.
fn sum_of(radii: &[u64; MOST_TERMINALS], mask: u32) -> u64
    requires { (place : ℕ) → slice_index radii.now place ≤ widest }
    ensures { result ≡ radii_sum (slice_index radii.now) mask few_terminals }
{
    let mut sum: u64 = 0;
    for place in 0..MOST_TERMINALS {
        if (mask >> place as u32) % 2 == 1 {
            sum += radii[place];
        }
    }
    sum
}
