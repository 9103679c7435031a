//! The order of targets.

ghost use Rattle.std.specs.Prelude.{◌≡◌, ◌<◌, ◌≤◌, length, map};
ghost use Rattle.std.specs.List.Sorted.{IsPermutation};
ghost use Rattle.net_search.specs.Targets.{drawn_nearer};
ghost use Rattle.tree_growth.specs.Nearest.{AreNearestFirst, IsNearestFrom};

use net_search::{Site, Target};

/// Brings this many of the nearest targets to the front.
pub(crate) fn bring_nearest(left: &mut [Target], count: usize)
    ensures same { IsPermutation left.old left.new }
    ensures nearest { AreNearestFirst left.new count }
{
    for place in 0..count.min(left.len()) {
        let nearest = nearest_from(left, place);
        left.swap(place, nearest);
    }
}

/// The place of the nearest target, from this place on.
fn nearest_from(left: &[Target], place: usize) -> usize
    requires { place < length left.now }
    ensures within { result < length left.now }
    ensures from { place ≤ result }
    ensures nearest { IsNearestFrom left.now place result }
{
    let mut nearest = place;
    for at in place..left.len() {
        if left[at].distance() < left[nearest].distance() {
            nearest = at;
        }
    }
    nearest
}

/// Tells targets of more sites that are joined.
pub(crate) fn draw_nearer(left: &mut [Target], joined: &[Site])
    ensures { left.new ≡ map (drawn_nearer joined.now) left.old }
{
    for target in left.iter_mut() {
        target.draw_nearer(joined);
    }
}
