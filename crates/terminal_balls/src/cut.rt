//! Where balls end.

ghost use Rattle.std.specs.Prelude.{ℕ, ◌≡◌, min, slice_index};

use crate::limits::MOST_TERMINALS;

/// Radii of which none is above a limit.
pub(crate) fn cut_at(radii: &[u64; MOST_TERMINALS], limit: u64) -> [u64; MOST_TERMINALS]
    ensures { (place : ℕ) → slice_index result place ≡ min (slice_index radii.now place) limit }
{
    let mut cut = *radii;
    for place in 0..MOST_TERMINALS {
        cut[place] = radii[place].min(limit);
    }
    cut
}
