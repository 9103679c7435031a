//! What is still to go.

ghost use Rattle.std.specs.Prelude.{◌≤◌, All};
ghost use Rattle.net_search.specs.Going.{rest_to};

use crate::goal::Goal;
use crate::site::Site;
use layer_ways::FewestVias;

/// What a net's ways cost at least.
#[derive(Drop)]
pub(crate) struct Bound<'a> {
    pub(crate) vias: &'a FewestVias,
    /// The distance of each tile from the landmark, or nothing.
    pub(crate) landmark: &'a [u32],
    /// The least demand of the net.
    pub(crate) demand: u32,
    pub(crate) cols: u32,
}

impl Bound<'_> {
    ghost use Rattle.std.specs.Prelude.{◌≡◌, ◌≤◌, ℕ, All, None, Some, slice_get, slice_index};
    ghost use Rattle.net_search.specs.Going.{rest_to, rest_at_prices};
    ghost use Rattle.net_search.specs.Tiles.{tile_of};

    /// What a way from here to the nearest of some targets costs at least.
    #[inline(always)]
    pub(crate) fn rest(&self, goals: &[Goal], site: &Site) -> u64
        ensures priced { (distance : ℕ) → slice_get self.now.landmark.now (tile_of self.now site.now) ≡ Some distance → All (λ goal. result ≤ rest_at_prices goal site.now distance self.now.demand) goals.now }
        ensures plain { slice_get self.now.landmark.now (tile_of self.now site.now) ≡ None → All (λ goal. result ≤ rest_to goal site.now) goals.now }
    {
        match self.landmark.get(self.tile_of(site)) {
            Some(distance) => self.rest_at_prices(goals, site, *distance),
            None => rest_without_prices(goals, site),
        }
    }

    /// The same from a tile with this distance from the landmark.
    #[inline(always)]
    fn rest_at_prices(&self, goals: &[Goal], site: &Site, from_landmark: u32) -> u64
        ensures { All (λ goal. result ≤ rest_at_prices goal site.now from_landmark self.now.demand) goals.now }
    {
        let mut least = u64::MAX;
        for goal in goals {
            least = least.min(goal.rest_at_prices(site, from_landmark, self.demand));
        }
        least
    }

    /// The distance of the tile of a site from the landmark, or 0 where there is none.
    pub(crate) fn from_landmark(&self, site: &Site) -> u32
        ensures { result ≡ slice_index self.now.landmark.now (tile_of self.now site.now) }
    {
        match self.landmark.get(self.tile_of(site)) {
            Some(distance) => *distance,
            None => 0,
        }
    }

    /// The number of the tile of a site.
    #[inline(always)]
    fn tile_of(&self, site: &Site) -> usize
        ensures { result ≡ tile_of self.now site.now }
    {
        site.row.wrapping_mul(self.cols).wrapping_add(site.col) as usize
    }
}

/// The same where no prices count.
#[inline(always)]
fn rest_without_prices(goals: &[Goal], site: &Site) -> u64
    ensures { All (λ goal. result ≤ rest_to goal site.now) goals.now }
{
    let mut least = u64::MAX;
    for goal in goals {
        least = least.min(goal.rest(site));
    }
    least
}
