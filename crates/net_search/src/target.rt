//! Terminals to which a search may lead.

use crate::site::Site;

/// A terminal to which a search may lead.
#[derive(Clone, Copy)]
pub struct Target {
    pub(crate) site: Site,
    /// The tile steps to it from what is joined.
    pub(crate) distance: u32,
}

impl Target {
    ghost use Rattle.std.specs.Prelude.{◌≡◌, ◌≤◌, All};
    ghost use Rattle.net_search.specs.Sites.{tiles_between};
    ghost use Rattle.net_search.specs.Targets.{drawn_nearer};

    /// A terminal as a target, where so far one site is joined.
    pub fn of(site: Site, joined: Site) -> Target
        ensures site { result.site ≡ site }
        ensures distance { result.distance ≡ tiles_between site joined }
    {
        Target {
            site,
            distance: site.tiles_to(joined),
        }
    }

    /// Where it is.
    pub fn site(&self) -> Site
        ensures { result ≡ self.now.site }
    {
        self.site
    }

    /// The tile steps to it from what is joined.
    pub fn distance(&self) -> u32
        ensures { result ≡ self.now.distance }
    {
        self.distance
    }

    /// Tells it of more sites that are joined.
    pub fn draw_nearer(&mut self, joined: &[Site])
        ensures site { self.new.site ≡ self.old.site }
        ensures nearer { self.new.distance ≤ self.old.distance }
        ensures all { All (λ site. self.new.distance ≤ tiles_between self.old.site site) joined.now }
        ensures nearest { self.new ≡ drawn_nearer joined.now self.old }
    {
        for other in joined {
            self.distance = self.distance.min(self.site.tiles_to(*other));
        }
    }
}
