//! What an edge is to a search.

use grid_graph::Kind;

/// What an edge is to a search: of which kind it is, and whether the net's own set holds it.
#[derive(Clone, Copy, PartialEq, Eq)]
#[repr(u8)]
pub(crate) enum Road {
    /// It is a wall.
    Wall,
    /// Nets whose ground has choked edges may use it.
    Choked,
    /// Each net may use it.
    Open,
    /// It is choked, and the net's own.
    OwnChoked,
    /// It is open, and the net's own.
    OwnOpen,
}

impl Road {
    ghost use Rattle.std.specs.Prelude.{◌≡◌, false};
    ghost use Rattle.net_search.specs.Kinds.{kind_of_road};
    ghost use Rattle.net_search.specs.Roads.{road_for};

    /// An edge of this kind that the net hasn't got.
    pub(crate) fn of(kind: Kind) -> Road
        ensures { result ≡ road_for kind false }
    {
        match kind {
            Kind::Open => Road::Open,
            Kind::Choked => Road::Choked,
            Kind::Wall => Road::Wall,
        }
    }

    /// The same edge, if the net has got it, or hasn't.
    pub(crate) fn owned(self, is_own: bool) -> Road
        ensures { result ≡ road_for (kind_of_road self) is_own }
    {
        match (self, is_own) {
            (Road::Wall, _) => Road::Wall,
            (Road::Choked | Road::OwnChoked, true) => Road::OwnChoked,
            (Road::Choked | Road::OwnChoked, false) => Road::Choked,
            (Road::Open | Road::OwnOpen, true) => Road::OwnOpen,
            (Road::Open | Road::OwnOpen, false) => Road::Open,
        }
    }
}
