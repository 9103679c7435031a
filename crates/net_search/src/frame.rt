//! Boxes of tiles.

ghost use Rattle.std.specs.Prelude.{All};
ghost use Rattle.net_search.specs.Boxes.{IsIn};
ghost use Rattle.net_search.specs.Sites.{site_at};
ghost use Rattle.grid_base.specs.Numbers.{IsVertex};

use crate::site::Site;
use grid_base::{Size, Vertex};

/// The tiles between two columns and two rows.
#[derive(Clone, Copy)]
pub(crate) struct Frame {
    pub(crate) west: u32,
    pub(crate) east: u32,
    pub(crate) south: u32,
    pub(crate) north: u32,
}

impl Frame {
    ghost use Rattle.std.specs.Prelude.{◌≡◌, ◌↔◌, IsTrue};
    ghost use Rattle.net_search.specs.Boxes.{IsIn, box_with, box_widened, box_cut};

    /// No tile.
    pub(crate) const NONE: Frame = Frame {
        west: u32::MAX,
        east: 0,
        south: u32::MAX,
        north: 0,
    };

    /// The least box with the tile of a site in it too, and all that is no further from it than this.
    pub(crate) fn with(self, site: Site, margin: u32) -> Frame
        ensures { result ≡ box_with self site margin }
    {
        Frame {
            west: self.west.min(site.col.saturating_sub(margin)),
            east: self.east.max(site.col.saturating_add(margin)),
            south: self.south.min(site.row.saturating_sub(margin)),
            north: self.north.max(site.row.saturating_add(margin)),
        }
    }

    /// The box with a margin.
    pub(crate) fn widened(self, margin: u32) -> Frame
        ensures { result ≡ box_widened self margin }
    {
        Frame {
            west: self.west.saturating_sub(margin),
            east: self.east.saturating_add(margin),
            south: self.south.saturating_sub(margin),
            north: self.north.saturating_add(margin),
        }
    }

    /// What is in both, and in a grid.
    pub(crate) fn cut(self, other: Frame, size: Size) -> Frame
        ensures { result ≡ box_cut self other size }
    {
        Frame {
            west: self.west.max(other.west),
            east: self.east.min(other.east).min(size.cols().saturating_sub(1)),
            south: self.south.max(other.south),
            north: self
                .north
                .min(other.north)
                .min(size.rows().saturating_sub(1)),
        }
    }

    /// Whether the tile of a site is in it.
    #[inline(always)]
    pub(crate) fn has(self, site: Site) -> bool
        ensures { IsTrue result ↔ IsIn self site }
    {
        self.west <= site.col
            && site.col <= self.east
            && self.south <= site.row
            && site.row <= self.north
    }
}

/// The box of terminals.
pub(crate) fn frame_of(size: Size, terminals: &[Vertex]) -> Frame
    requires { All (λ t. IsVertex size t.0) terminals.now }
    ensures { All (λ t. IsIn result (site_at size t.0)) terminals.now }
{
    let mut frame = Frame::NONE;
    for terminal in terminals {
        frame = frame.with(Site::of(size, *terminal), 0);
    }
    frame
}
