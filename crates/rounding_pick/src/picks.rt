//! The phase that is picked for a net.

ghost use Rattle.std.specs.Prelude.{◌≡◌, ◌<◌};
ghost use Rattle.rounding_pick.specs.Picks.{pick};

use seed_streams::SeedWords;

/// The phase, counted from 0, that is picked for the net at this position of the design. It depends on nothing but the
/// seed, the position and the number of phases, so workers have no part in it.
pub fn pick(seed: u64, net: u32, phases: u32) -> u32
    requires phases { 0 < phases }
    ensures word { result ≡ pick seed net phases }
    ensures below { result < phases }
{
    SeedWords::of(seed, u64::from(net)).draw(phases)
}
