//! Nets in a drawn order.

ghost use Rattle.std.specs.Prelude.{◌<◌, ◌^◌, ℕ, length, All};
ghost use Rattle.std.specs.List.Sorted.{IsPermutation};

use seed_streams::SeedWords;

/// Puts the nets into an order that is drawn from a stream of the seed, after Fisher and Yates.
pub(crate) fn shuffle(nets: &mut [u32], seed: u64, stream: u64)
    requires few { length nets.old < 2 ^ 32 }
    ensures same { IsPermutation nets.old nets.new }
    ensures below { (limit : ℕ) → All (λ net. net < limit) nets.old → All (λ net. net < limit) nets.new }
{
    let mut words = SeedWords::of(seed, stream);
    for last in 1..nets.len() {
        let drawn = words.draw(last as u32 + 1);
        nets.swap(last, drawn as usize);
    }
}
