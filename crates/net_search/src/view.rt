//! What one search goes by.

use crate::frame::Frame;
use crate::goal::Goal;
use crate::plan::Plan;
use crate::site::Site;
use crate::target::Target;

/// What one search goes by.
#[derive(Drop)]
pub(crate) struct View<'g, 'p, 'a> {
    pub(crate) plan: &'p Plan<'a>,
    /// Where it may end.
    pub(crate) goals: &'g [Goal],
    /// It stays in here.
    pub(crate) frame: Frame,
}

impl<'g, 'p, 'a> View<'g, 'p, 'a> {
    ghost use Rattle.std.specs.Prelude.{◌≡◌, ◌≤◌, ◌↔◌, All, None, IsTrue, slice_get};
    ghost use Rattle.std.specs.List.{Any};
    ghost use Rattle.net_search.specs.Boxes.{IsWithin, box_cut, box_widened};
    ghost use Rattle.net_search.specs.Going.{rest_to};
    ghost use Rattle.net_search.specs.Tiles.{tile_of};

    /// That of a search for some targets, which looks no further than the margin beyond the net's box, nor beyond the
    /// targets as far as each is from what is joined.
    pub(crate) fn of(
        plan: &'p Plan<'a>,
        targets: &[Target],
        goals: &'g [Goal],
        margin: u32,
    ) -> View<'g, 'p, 'a>
        ensures goals { result.goals.now ≡ goals.now }
        ensures frame { IsWithin result.frame (box_cut (box_widened plan.now.frame margin) (box_widened plan.now.frame margin) plan.now.size) }
    {
        let mut frame = Frame::NONE;
        for target in targets {
            frame = frame.with(target.site, target.distance.saturating_add(margin));
        }
        View {
            plan,
            goals,
            frame: frame.cut(plan.frame.widened(margin), plan.size),
        }
    }

    /// What is still to go from here at least.
    #[inline(always)]
    pub(crate) fn rest(&self, site: &Site) -> u64
        ensures plain { slice_get self.now.plan.now.bound.landmark.now (tile_of self.now.plan.now.bound site.now) ≡ None → All (λ goal. result ≤ rest_to goal site.now) self.now.goals.now }
    {
        self.plan.bound.rest(self.goals, site)
    }

    /// Whether a site is that of a target.
    #[inline(always)]
    pub(crate) fn is_target(&self, site: &Site) -> bool
        ensures { IsTrue result ↔ Any (λ goal. goal.site.vertex ≡ site.now.vertex) self.now.goals.now }
    {
        self.goals
            .iter()
            .any(|goal| goal.site.vertex == site.vertex)
    }
}
