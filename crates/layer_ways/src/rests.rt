//! What is still to go from one layer.

/// What a way from one layer weighs at least beside its tile steps, by the axes along which it has to run.
#[derive(Clone, Copy)]
pub struct Rests {
    pub upright: u32,
    pub along_x: u32,
    pub along_y: u32,
    pub along_both: u32,
}

impl Rests {
    ghost use Rattle.std.specs.Prelude.{◌≡◌};
    ghost use Rattle.layer_ways.specs.ViaRests.{rest_along, rests_with, least_rests};

    /// Nothing.
    pub(crate) const NONE: Rests = Rests {
        upright: 0,
        along_x: 0,
        along_y: 0,
        along_both: 0,
    };

    /// More than any way.
    pub const FAR: Rests = Rests {
        upright: u32::MAX,
        along_x: u32::MAX,
        along_y: u32::MAX,
        along_both: u32::MAX,
    };

    /// That of a way that has to run along these axes.
    #[inline(always)]
    pub fn at(&self, along_x: bool, along_y: bool) -> u32
        ensures { result ≡ rest_along self.now along_x along_y }
    {
        let with_y = if along_x {
            self.along_both
        } else {
            self.along_y
        };
        let without_y = if along_x { self.along_x } else { self.upright };
        if along_y { with_y } else { without_y }
    }

    /// So much more from every other tile; within the tile as before.
    pub fn with(self, more: u32) -> Rests
        ensures { result ≡ rests_with self more }
    {
        Rests {
            upright: self.upright,
            along_x: self.along_x.saturating_add(more),
            along_y: self.along_y.saturating_add(more),
            along_both: self.along_both.saturating_add(more),
        }
    }

    /// The least of both.
    pub fn or(self, other: Rests) -> Rests
        ensures { result ≡ least_rests self other }
    {
        Rests {
            upright: self.upright.min(other.upright),
            along_x: self.along_x.min(other.along_x),
            along_y: self.along_y.min(other.along_y),
            along_both: self.along_both.min(other.along_both),
        }
    }
}
